//! What bytes are written to.
ghost use Rattle.std.specs.Prelude.{◌≡◌, ℕ, ◌<◌, ◌≤◌, List, Option, IfOk, length};
ghost use Rattle.std.specs.Io.KnownBytes.{WriteAppends};
ghost use Rattle.gl_outside.specs.Faults.{Counts, Rose};

use crate::Failed;

/// A place that takes bytes, in pieces of any size.
pub trait Sink {
    /// How many faults there were.
    ghost faults: { Self → ℕ };

    /// The bytes that it holds, where they are told.
    ghost held: { Self → Option (List ℕ) };

    /// What writing never changes: two states of the object are related where it is the same in
    /// both.
    ghost same: { Self → Self → Type 0 };

    /// `Ok(k)` appended the first k bytes of `piece`. `Ok(0)` for a piece that is not empty is a fault too, and is
    /// counted as one. `Err` appended none.
    fn write(&mut self, piece: &[u8]) -> Result<usize, Failed>
        ensures bound { IfOk result (λ count. count ≤ length piece.now) }
        ensures bytes { WriteAppends (held self.old) (held self.new) result piece.now }
        ensures none_taken { IfOk result (λ count. count ≡ 0 → 0 < length piece.now →
            Rose (faults self.old) (faults self.new)) }
        ensures same { same self.old self.new }
        ensures counts { Counts (faults self.old) (faults self.new) result };

    ghost same_refl: { (a : Self) → same a a };

    ghost same_trans: { (a b c : Self) → same a b → same b c → same a c };
}
