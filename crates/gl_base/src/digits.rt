//! Numbers in decimal digits.
ghost use Rattle.std.specs.Prelude.{◌≡◌, ◌++◌, OnErr, OnOk};

use crate::NoMemory;
use itoa::{Buffer, Integer};

/// Adds a number in decimal, without a sign or zeros before it. After `NoMemory` the text is
/// unchanged.
pub fn push_decimal<I: Integer>(text: &mut Vec<u8>, number: I) -> Result<(), NoMemory>
    ensures added { OnOk result (text.new.items ≡ text.old.items ++ I.text number) }
    ensures unchanged { OnErr result (text.new.items ≡ text.old.items) }
{
    let mut digits = Buffer::new();
    text.extend_from_slice(digits.format(number).as_bytes())?;
    Ok(())
}
