//! What a crash may leave of a small history, worked out by hand.
ghost use Rattle.std.specs.Prelude.{◌≡◌, ℕ, List, [], ◌∷◌, OnOk};
ghost use Rattle.gl_outside.specs.Disk.{at_rest, images_now, images_since};
ghost use Rattle.gl_outside.specs.MemDisk.{past_of};
ghost use Rattle.tests_low.specs.History.{synced, written_over};

use gl_outside::{Disk, Failed, MemDisk};

/// A disk in memory has this history, where it held 1, 2, 3.
pub fn write_and_sync(disk: &mut MemDisk) -> Result<(), Failed>
    requires { past_of disk.old.kept ≡ at_rest (1 ∷ 2 ∷ 3 ∷ []) }
    ensures { OnOk result (past_of disk.new.kept ≡ synced) }
{
    disk.write_at(1, &[9])?;
    disk.sync()
}

/// Of the bytes 1, 2, 3 the one at place 1 is written over by 9. Until a sync a crash may leave any
/// byte there and any bytes behind the old end, and nothing else; behind the sync it leaves 1, 9,
/// 3, and before it may have left what it might then.
pub fn images_of_a_write()
    ensures seen { written_over.now.seen ≡ 1 ∷ 9 ∷ 3 ∷ [] }
    ensures old { images_now written_over (1 ∷ 2 ∷ 3 ∷ []) }
    ensures torn { images_now written_over (1 ∷ 7 ∷ 3 ∷ []) }
    ensures longer { images_now written_over (1 ∷ 9 ∷ 3 ∷ 8 ∷ []) }
    ensures shorter { images_now written_over (1 ∷ 9 ∷ []) → ⊥ }
    ensures elsewhere { images_now written_over (1 ∷ 9 ∷ 4 ∷ []) → ⊥ }
    ensures only { (image : List ℕ) → images_now synced image → image ≡ 1 ∷ 9 ∷ 3 ∷ [] }
    ensures earlier { images_since synced 1 (1 ∷ 7 ∷ 3 ∷ []) }
    ensures later { images_since synced 2 (1 ∷ 7 ∷ 3 ∷ []) → ⊥ }
{}
