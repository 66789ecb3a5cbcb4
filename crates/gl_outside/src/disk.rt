//! What is written at any place, and what a crash leaves of it.
ghost use Rattle.std.specs.Prelude.{◌≡◌, ℕ, ◌≤◌, Bool, IsTrue, IfOk, length};
ghost use Rattle.gl_outside.specs.Disk.{DiskPast, ReadsAt, Syncs, WritesAt, images_now};
ghost use Rattle.gl_outside.specs.Faults.{Counts};

use crate::Failed;

/// Bytes that are read and written at any place, and that a crash may tear until they are synced.
///
/// Between two syncs a crash may leave any bytes in each range that was written and past the old
/// end, and the other bytes stay. After a sync that succeeds it leaves what a read gives. A disk as
/// it reads is one of its images.
pub trait Disk {
    /// How many faults there were.
    ghost faults: { Self → ℕ };

    /// Whether it is told what it holds: over memory it is, and over a real file it is not.
    ghost observable: { Bool };

    /// Its states up to now: what a read gives now, what a crash may leave now, and what it may
    /// have left before.
    ghost past: { Self → DiskPast };

    /// What no call changes: two states of the object are related where it is the same in both.
    ghost same: { Self → Self → Type 0 };

    /// How many bytes a read gives.
    fn len(&mut self) -> Result<u64, Failed>
        ensures length { IsTrue observable →
            IfOk result (λ count. count ≡ length (past self.old).now.seen) }
        ensures past { IsTrue observable → past self.new ≡ past self.old }
        ensures same { same self.old self.new }
        ensures counts { Counts (faults self.old) (faults self.new) result };

    /// `Ok(k)` read the k bytes from `at` on into the front of `buf`. `Ok(0)` for a buffer that is not empty comes only
    /// where `at` is the end or past it.
    fn read_at(&mut self, at: u64, buf: &mut [u8]) -> Result<usize, Failed>
        ensures bound { IfOk result (λ count. count ≤ length buf.new) }
        ensures bytes { IsTrue observable → ReadsAt (past self.old).now.seen at buf.new result }
        ensures past { IsTrue observable → past self.new ≡ past self.old }
        ensures same { same self.old self.new }
        ensures counts { Counts (faults self.old) (faults self.new) result };

    /// Writes the whole piece over what stands at `at`, and past the end. A gap before it reads as
    /// zeros. Until a sync a crash may leave any bytes in the range and past the old end. Where it
    /// fails, a read may give any bytes there.
    fn write_at(&mut self, at: u64, piece: &[u8]) -> Result<(), Failed>
        ensures past { IsTrue observable →
            WritesAt (past self.old) at piece.now (past self.new) result }
        ensures same { same self.old self.new }
        ensures counts { Counts (faults self.old) (faults self.new) result };

    /// After it a crash leaves what a read gives. Where it fails, a crash may leave what it might
    /// have left before.
    fn sync(&mut self) -> Result<(), Failed>
        ensures past { IsTrue observable → Syncs (past self.old) (past self.new) result }
        ensures same { same self.old self.new }
        ensures counts { Counts (faults self.old) (faults self.new) result };

    ghost same_refl: { (a : Self) → same a a };

    ghost same_trans: { (a b c : Self) → same a b → same b c → same a c };

    /// A disk as it reads is one of its images.
    ghost reads_an_image: { (disk : Self) → IsTrue observable →
        images_now (past disk) (past disk).now.seen };
}
