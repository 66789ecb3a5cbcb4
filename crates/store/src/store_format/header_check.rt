//! The check of a store's header.
ghost use Rattle.std.specs.Prelude.{◌≡◌, ◌+◌, ◌^◌, ◌<◌, ◌≤◌, length, Some, None, OnOk, IfErr};
ghost use Rattle.std.specs.Str.{bytes_eq};
ghost use Rattle.store.specs.store_format.Fields.{field};
ghost use Rattle.store.specs.store_format.Headers.{field_fault, digest_in, program_in, program_of, machines_fault, other_graph, other_program, unformed_fault, other_fault, store_header_fault};

use crate::store_format::fields::u64_at;
use crate::store_format::{Digest, Header, ProgramKey, StoreFault};
use byteorder::{BigEndian, ByteOrder};
use graph_atoms::atom_file::{u16_at, u32_at};

/// The bytes of `GLABSTOR`, as a number.
const WORD: u64 = 0x474c_4142_5354_4f52;

/// How many bytes the header has.
pub const HEADER: usize = 64;

/// Looks whether the field of so many bytes at a place is there, and holds a number from `least` to
/// `most`.
fn check_field(
    bytes: &[u8],
    at: usize,
    size: usize,
    least: u64,
    most: u64,
) -> Result<(), StoreFault>
    requires some { 1 ≤ size }
    requires few { size ≤ 8 }
    requires near { at + size < 2 ^ 32 }
    ensures none { OnOk result (field_fault bytes.now at size least most ≡ None) }
    ensures fault { IfErr result (λ fault. field_fault bytes.now at size least most ≡ Some fault) }
{
    if bytes.len() < at + size {
        return Err(StoreFault::Torn(bytes.len() as u64));
    }
    let number = BigEndian::read_uint(&bytes[at..], size);
    if number < least {
        return Err(StoreFault::BadByte(at as u64));
    }
    if most < number {
        return Err(StoreFault::BadByte(at as u64));
    }
    Ok(())
}

/// The digest of a header.
fn digest_at(bytes: &[u8]) -> Digest
    requires { 64 ≤ length bytes.now }
    ensures { result.0 ≡ digest_in bytes.now }
{
    let mut digest = [0; 32];
    digest.copy_from_slice(&bytes[32..64]);
    Digest(digest)
}

/// The program of a header.
fn program_at(bytes: &[u8]) -> ProgramKey
    requires { 64 ≤ length bytes.now }
    ensures { result ≡ program_in bytes.now }
{
    ProgramKey {
        algorithm: bytes[14],
        directed: bytes[15],
        source: u64_at(bytes, 16),
    }
}

/// Looks whether a store was made for so many machines.
fn check_machines(header: &Header, bytes: &[u8]) -> Result<(), StoreFault>
    requires { 64 ≤ length bytes.now }
    ensures none { OnOk result (machines_fault header.now bytes.now ≡ None) }
    ensures fault { IfErr result (λ fault. machines_fault header.now bytes.now ≡ Some fault) }
{
    let kept = u16_at(bytes, 12);
    if kept != header.machines {
        return Err(StoreFault::Machines {
            kept,
            given: header.machines,
        });
    }
    Ok(())
}

/// Looks whether it was made for this graph.
fn check_graph(header: &Header, bytes: &[u8]) -> Result<(), StoreFault>
    requires { 64 ≤ length bytes.now }
    ensures none { OnOk result (other_graph header.now bytes.now ≡ None) }
    ensures fault { IfErr result (λ fault. other_graph header.now bytes.now ≡ Some fault) }
{
    let kept = digest_at(bytes);
    if kept == header.digest && u32_at(bytes, 24) == header.n && u32_at(bytes, 28) == header.m {
        return Ok(());
    }
    Err(StoreFault::Graph {
        kept,
        given: header.digest,
    })
}

/// Looks whether it was made for this program.
fn check_program(header: &Header, bytes: &[u8]) -> Result<(), StoreFault>
    requires { 64 ≤ length bytes.now }
    ensures none { OnOk result (other_program header.now bytes.now ≡ None) }
    ensures fault { IfErr result (λ fault. other_program header.now bytes.now ≡ Some fault) }
{
    let kept = program_at(bytes);
    let given = ProgramKey {
        algorithm: header.algorithm,
        directed: header.directed,
        source: header.source,
    };
    if kept.algorithm == given.algorithm
        && kept.directed == given.directed
        && kept.source == given.source
    {
        return Ok(());
    }
    Err(StoreFault::Program { kept, given })
}

/// Looks at the fields of the first bytes of a store, one by one.
fn check_form(bytes: &[u8]) -> Result<(), StoreFault>
    ensures none { OnOk result (unformed_fault bytes.now ≡ None) }
    ensures fault { IfErr result (λ fault. unformed_fault bytes.now ≡ Some fault) }
    ensures whole { OnOk result (64 ≤ length bytes.now) }
{
    check_field(bytes, 0, 8, WORD, WORD)?;
    check_field(bytes, 8, 4, 1, 1)?;
    check_field(bytes, 12, 2, 1, 16)?;
    check_field(bytes, 14, 1, 1, 5)?;
    check_field(bytes, 15, 1, 0, 1)?;
    if bytes.len() < HEADER {
        return Err(StoreFault::Torn(bytes.len() as u64));
    }
    Ok(())
}

/// Looks whether a store was made for this header.
fn check_same(header: &Header, bytes: &[u8]) -> Result<(), StoreFault>
    requires { 64 ≤ length bytes.now }
    ensures none { OnOk result (other_fault header.now bytes.now ≡ None) }
    ensures fault { IfErr result (λ fault. other_fault header.now bytes.now ≡ Some fault) }
{
    check_machines(header, bytes)?;
    check_graph(header, bytes)?;
    check_program(header, bytes)
}

/// Looks at the first bytes of a store, at most 64. The first fault is answered.
pub fn check_header(header: &Header, bytes: &[u8]) -> Result<(), StoreFault>
    ensures none { OnOk result (store_header_fault header.now bytes.now ≡ None) }
    ensures fault { IfErr result (λ fault. store_header_fault header.now bytes.now ≡ Some fault) }
    ensures whole { OnOk result (64 ≤ length bytes.now) }
{
    check_form(bytes)?;
    check_same(header, bytes)
}
