//! The form of an index file.
ghost use Rattle.std.specs.Prelude.{◌≡◌, ◌+◌, ◌*◌, ◌^◌, ◌<◌, ◌≤◌, nat_lt, if◌then◌else◌, length, Option, Some, None, IfOk, IfErr, OnOk};
ghost use Rattle.std.specs.Option.{option_or};
ghost use Rattle.graph_atoms.specs.declared.atom_file.faults.AtomFault.{AtomFault};
ghost use Rattle.graph_atoms.specs.declared.atom_file.faults.AtomFault.TheVariants.{OutOfOrder};
ghost use Rattle.graph_atoms.specs.atom_file.Fields.{field};
ghost use Rattle.graph_atoms.specs.atom_file.Faults.{torn_fault};
ghost use Rattle.graph_atoms.specs.atom_gather.IndexForm.{range_fault, atoms_in, head_fault, metas_fault, index_fault};

use crate::atom_file::{AtomFault, check_value, check_whole, u16_at, u32_at};
use byteorder::{BigEndian, ByteOrder};
use gl_base::MAX_ATOMS;

/// The bytes of `GLABINDX`, as a number.
const WORD: u64 = 0x474c_4142_494e_4458;

/// How many bytes stand before the meta-edges, but for the counts of atoms.
const HEAD: usize = 52;

/// Looks at the form of an index, and tells how many atoms there are. The first fault is answered.
pub fn check_index(bytes: &[u8]) -> Result<u16, AtomFault>
    ensures atoms { IfOk result (λ atoms. atoms ≡ atoms_in bytes.now) }
    ensures some { IfOk result (λ atoms. 1 ≤ atoms) }
    ensures few { IfOk result (λ atoms. atoms ≤ MAX_ATOMS) }
    ensures none { IfOk result (λ _. index_fault bytes.now ≡ None) }
    ensures fault { IfErr result (λ fault. index_fault bytes.now ≡ Some fault) }
{
    let atoms = check_head(bytes)?;
    let start = HEAD + 12 * atoms as usize;
    check_metas(bytes, u32_at(bytes, start - 4), start)?;
    Ok(atoms)
}

/// Looks at what stands before the meta-edges, and tells how many atoms there are.
fn check_head(bytes: &[u8]) -> Result<u16, AtomFault>
    ensures atoms { IfOk result (λ atoms. atoms ≡ atoms_in bytes.now) }
    ensures some { IfOk result (λ atoms. 1 ≤ atoms) }
    ensures few { IfOk result (λ atoms. atoms ≤ MAX_ATOMS) }
    ensures whole { IfOk result (λ atoms. 52 + 12 * atoms ≤ length bytes.now) }
    ensures none { IfOk result (λ _. head_fault bytes.now ≡ None) }
    ensures fault { IfErr result (λ fault. head_fault bytes.now ≡ Some fault) }
{
    check_value(bytes, 0, 8, WORD)?;
    check_value(bytes, 8, 4, 1)?;
    check_range(bytes, 44, 1, 0, 1)?;
    check_value(bytes, 45, 1, 0)?;
    check_range(bytes, 46, 2, 1, MAX_ATOMS as u64)?;
    let atoms = u16_at(bytes, 46);
    check_whole(bytes, HEAD + 12 * atoms as usize)?;
    Ok(atoms)
}

/// Looks whether the number of so many bytes at a place is in a range.
fn check_range(bytes: &[u8], at: usize, size: usize, low: u64, high: u64) -> Result<(), AtomFault>
    requires some { 1 ≤ size }
    requires few { size ≤ 8 }
    requires near { at + size < 2 ^ 32 }
    ensures whole { OnOk result (at + size ≤ length bytes.now) }
    ensures low { OnOk result (low ≤ field bytes.now at size) }
    ensures high { OnOk result (field bytes.now at size ≤ high) }
    ensures none { OnOk result (range_fault bytes.now at size low high ≡ None) }
    ensures fault { IfErr result (λ fault. range_fault bytes.now at size low high ≡ Some fault) }
{
    check_whole(bytes, at + size)?;
    let number = BigEndian::read_uint(&bytes[at..], size);
    if number < low {
        return Err(AtomFault::BadTag(at as u64));
    }
    if high < number {
        return Err(AtomFault::BadTag(at as u64));
    }
    Ok(())
}

/// Looks at so many meta-edges from a place on, and at the end of the file.
fn check_metas(bytes: &[u8], count: u32, start: usize) -> Result<(), AtomFault>
    requires { start ≤ length bytes.now }
    ensures none { OnOk result (metas_fault bytes.now count 0 start ≡ None) }
    ensures fault { IfErr result (λ fault. metas_fault bytes.now count 0 start ≡ Some fault) }
{
    let mut least = 0;
    let mut at = start;
    for _ in 0..count {
        let pair = check_meta(bytes, least, at)?;
        least = u64::from(pair) + 1;
        at += 8;
    }
    if at < bytes.len() {
        return Err(AtomFault::Trailing(at as u64));
    }
    Ok(())
}

/// Looks at a meta-edge, and tells its pair of atoms as a number.
fn check_meta(bytes: &[u8], least: u64, at: usize) -> Result<u32, AtomFault>
    requires { at ≤ length bytes.now }
    ensures whole { IfOk result (λ _. at + 8 ≤ length bytes.now) }
    ensures pair { IfOk result (λ pair. pair ≡ field bytes.now at 4) }
    ensures none { IfOk result (λ _. (next : Option AtomFault) →
        option_or (torn_fault bytes.now (at + 8))
        (if nat_lt (field bytes.now at 4) least then Some (OutOfOrder at) else next) ≡ next) }
    ensures fault { IfErr result (λ fault. (next : Option AtomFault) →
        option_or (torn_fault bytes.now (at + 8))
        (if nat_lt (field bytes.now at 4) least then Some (OutOfOrder at) else next) ≡ Some fault) }
{
    check_whole(bytes, at + 8)?;
    let pair = u32_at(bytes, at);
    if u64::from(pair) < least {
        return Err(AtomFault::OutOfOrder(at as u64));
    }
    Ok(pair)
}
