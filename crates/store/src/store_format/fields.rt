//! Fields, read and written.
ghost use Rattle.std.specs.Prelude.{◌≡◌, ◌+◌, ◌<◌, ◌≤◌, length, Some, None, OnOk, IfErr};
ghost use Rattle.store.specs.store_format.Fields.{field, bad_outside};

use byteorder::{BigEndian, ByteOrder};

/// The number in the eight bytes from a place on.
pub fn u64_at(bytes: &[u8], at: usize) -> u64
    requires { at + 8 ≤ length bytes.now }
    ensures { result ≡ field bytes.now at 8 }
{
    BigEndian::read_u64(&bytes[at..])
}

/// Looks whether a number is at least `least` and below `limit`. Where it isn't, the place is
/// handed back.
pub fn check_within(least: u64, limit: u64, number: u64, place: usize) -> Result<(), usize>
    ensures least { OnOk result (least ≤ number) }
    ensures limit { OnOk result (number < limit) }
    ensures none { OnOk result (bad_outside least limit number place ≡ None) }
    ensures fault { IfErr result (λ at. bad_outside least limit number place ≡ Some at) }
    ensures place { IfErr result (λ at. at ≡ place) }
{
    if number < least {
        return Err(place);
    }
    if limit <= number {
        return Err(place);
    }
    Ok(())
}
