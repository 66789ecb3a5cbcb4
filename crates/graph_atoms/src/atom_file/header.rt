//! The header of an atom file.
ghost use Rattle.std.specs.Prelude.{◌≡◌, ◌+◌, ◌^◌, ◌<◌, ◌≤◌, length, Some, None, OnOk, IfErr};
ghost use Rattle.graph_atoms.specs.atom_file.Faults.{torn_fault, value_fault, header_fault};

use crate::atom_file::AtomFault;
use byteorder::{BigEndian, ByteOrder};

/// The bytes of `GLABATOM`, as a number.
const WORD: u64 = 0x474c_4142_4154_4f4d;

/// How many bytes the header has.
pub const HEADER: usize = 20;

/// Looks whether the file goes up to a place.
pub fn check_whole(bytes: &[u8], end: usize) -> Result<(), AtomFault>
    ensures whole { OnOk result (end ≤ length bytes.now) }
    ensures none { OnOk result (torn_fault bytes.now end ≡ None) }
    ensures fault { IfErr result (λ fault. torn_fault bytes.now end ≡ Some fault) }
{
    if bytes.len() < end {
        return Err(AtomFault::Torn(bytes.len() as u64));
    }
    Ok(())
}

/// Looks whether the field of so many bytes at a place has this value.
pub fn check_value(bytes: &[u8], at: usize, size: usize, value: u64) -> Result<(), AtomFault>
    requires some { 1 ≤ size }
    requires few { size ≤ 8 }
    requires near { at + size < 2 ^ 32 }
    ensures none { OnOk result (value_fault bytes.now at size value ≡ None) }
    ensures fault { IfErr result (λ fault. value_fault bytes.now at size value ≡ Some fault) }
{
    check_whole(bytes, at + size)?;
    if BigEndian::read_uint(&bytes[at..], size) != value {
        return Err(AtomFault::BadTag(at as u64));
    }
    Ok(())
}

/// Looks at the header.
pub fn check_header(bytes: &[u8]) -> Result<(), AtomFault>
    ensures whole { OnOk result (HEADER ≤ length bytes.now) }
    ensures none { OnOk result (header_fault bytes.now ≡ None) }
    ensures fault { IfErr result (λ fault. header_fault bytes.now ≡ Some fault) }
{
    check_value(bytes, 0, 8, WORD)?;
    check_value(bytes, 8, 4, 1)?;
    check_value(bytes, 14, 2, 0)?;
    check_whole(bytes, HEADER)
}
