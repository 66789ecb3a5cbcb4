//! Numbers of some bytes each, the highest byte first.
ghost use Rattle.std.specs.Prelude.{◌≡◌, ◌+◌, ◌≤◌, length};
ghost use Rattle.graph_atoms.specs.atom_file.Fields.{field};

use byteorder::{BigEndian, ByteOrder};

/// The number in the two bytes from a place on.
pub fn u16_at(bytes: &[u8], at: usize) -> u16
    requires { at + 2 ≤ length bytes.now }
    ensures { result ≡ field bytes.now at 2 }
{
    BigEndian::read_u16(&bytes[at..])
}

/// The number in the four bytes from a place on.
pub fn u32_at(bytes: &[u8], at: usize) -> u32
    requires { at + 4 ≤ length bytes.now }
    ensures { result ≡ field bytes.now at 4 }
{
    BigEndian::read_u32(&bytes[at..])
}

/// The number in the eight bytes from a place on.
pub fn u64_at(bytes: &[u8], at: usize) -> u64
    requires { at + 8 ≤ length bytes.now }
    ensures { result ≡ field bytes.now at 8 }
{
    BigEndian::read_u64(&bytes[at..])
}
