//! The check of a record's body.
ghost use Rattle.std.specs.Prelude.{◌≡◌, ◌+◌, ◌*◌, ◌^◌, ◌<◌, ◌≤◌, [], length, Some, None, IfOk, OnOk, IfErr, IfSome, IfNone};
ghost use Rattle.store.specs.store_format.Inner.Taken.{AreLeftOf};
ghost use Rattle.store.specs.store_format.Bodies.{body_size, entry_count, number_fault, body_fault, IsBody};

use crate::store_format::Header;
use crate::store_format::entries_check::check_entries;
use crate::store_format::fields::check_within;
use crate::store_format::sections_check::{Keys, all_keys, check_sections};
use gl_base::NoMemory;
use graph_atoms::atom_file::u32_at;
use std::alloc::Global;

/// The numbers of snapshots are below this one.
const NUMBERS: u64 = 4_294_967_295;

/// How many bytes a body with so many entries has.
pub fn body_size(header: &Header, entries: u32) -> u64
    ensures size { result ≡ body_size header.now entries }
    ensures least { 8 ≤ result }
    ensures most { result < 2 ^ 38 }
{
    8 + 16 * u64::from(entries)
        + 8 * u64::from(header.machines)
        + 12 * u64::from(header.n)
        + 12 * u64::from(header.m)
}

/// Looks whether a body has this number.
fn check_number(number: u32, body: &[u8]) -> Result<(), usize>
    requires { 8 ≤ length body.now }
    ensures small { OnOk result (number < 4294967295) }
    ensures none { OnOk result (number_fault number body.now ≡ None) }
    ensures fault { IfErr result (λ place. number_fault number body.now ≡ Some place) }
    ensures inside { IfErr result (λ place. place < length body.now) }
{
    let here = u64::from(u32_at(body, 0));
    check_within(u64::from(number), u64::from(number) + 1, here, 0)?;
    check_within(0, NUMBERS, u64::from(number), 0)
}

/// Looks at the fields of a body, front to back. No key stands before them.
fn check_fields(
    header: &Header,
    number: u32,
    body: &[u8],
    vertices: &mut Keys,
    edges: &mut Keys,
) -> Result<(), usize>
    requires size { length body.now ≡ body_size header.now (entry_count body.now) }
    requires vertices { AreLeftOf vertices.old.marks.items vertices.old.left [] }
    requires edges { AreLeftOf edges.old.marks.items edges.old.left [] }
    requires n { length vertices.old.marks.items ≡ header.now.n }
    requires m { length edges.old.marks.items ≡ header.now.m }
    ensures none { OnOk result (body_fault header.now number body.now ≡ None) }
    ensures small { OnOk result (number < 4294967295) }
    ensures fault { IfErr result (λ place. body_fault header.now number body.now ≡ Some place) }
    ensures inside { IfErr result (λ place. place < length body.now) }
{
    check_number(number, body)?;
    let count = u32_at(body, 4);
    check_entries(header, number, body, count)?;
    check_sections(header, vertices, edges, body, 8 + 16 * count as usize)
}

/// The place of the first bad field of the body of a snapshot, if there is one.
pub fn fault_of_body(
    alloc: Global,
    header: &Header,
    number: u32,
    body: &[u8],
) -> Result<Option<usize>, NoMemory>
    requires { length body.now ≡ body_size header.now (entry_count body.now) }
    ensures fault { IfOk result (λ fault. body_fault header.now number body.now ≡ fault) }
    ensures form { IfOk result (λ fault. IfNone fault (IsBody header.now number body.now)) }
    ensures small { IfOk result (λ fault. IfNone fault (number < 4294967295)) }
    ensures inside { IfOk result (λ fault. IfSome fault (λ place. place < length body.now)) }
{
    let mut vertices = all_keys(alloc, header.n)?;
    let mut edges = all_keys(alloc, header.m)?;
    match check_fields(header, number, body, &mut vertices, &mut edges) {
        Ok(()) => Ok(None),
        Err(place) => Ok(Some(place)),
    }
}
