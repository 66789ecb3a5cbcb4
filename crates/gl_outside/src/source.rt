//! What bytes are read from.
ghost use Rattle.std.specs.Prelude.{ℕ, ◌≤◌, List, Option, IfOk, length};
ghost use Rattle.std.specs.Io.KnownBytes.{ReadConsumes};
ghost use Rattle.gl_outside.specs.Faults.{Counts};

/// A call failed.
#[derive(Clone, Copy, PartialEq, Eq)]
pub struct Failed;

/// Bytes, read in pieces of any size.
pub trait Source {
    /// How many faults there were.
    ghost faults: { Self → ℕ };

    /// The bytes that are left, where they are told.
    ghost left: { Self → Option (List ℕ) };

    /// What reading never changes: two states of the object are related where it is the same in
    /// both.
    ghost same: { Self → Self → Type 0 };

    /// `Ok(k)` took the next k bytes into the front of `buf`. `Ok(0)` for a buffer that is not empty is the end.
    /// `Err` took none.
    fn read(&mut self, buf: &mut [u8]) -> Result<usize, Failed>
        ensures bound { IfOk result (λ count. count ≤ length buf.new) }
        ensures bytes { ReadConsumes (left self.old) (left self.new) result buf.new }
        ensures same { same self.old self.new }
        ensures counts { Counts (faults self.old) (faults self.new) result };

    ghost same_refl: { (a : Self) → same a a };

    ghost same_trans: { (a b c : Self) → same a b → same b c → same a c };
}
