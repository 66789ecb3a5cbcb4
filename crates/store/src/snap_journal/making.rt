//! How a store is made.
ghost use Rattle.std.specs.Prelude.{◌≡◌, ◌<◌, ◌≤◌, ◌++◌, [], ◌∷◌, ℕ, List, length, IsTrue, IfErr, OnOk};
ghost use Rattle.store.specs.snap_journal.Disks.{images_now};
ghost use Rattle.store.specs.snap_journal.Formats.{store_header, IsAllowed};
ghost use Rattle.store.specs.snap_journal.Journals.{AllDecodeTo};
ghost use Rattle.store.specs.snap_journal.Answers.{InitErrorCause};

use crate::snap_journal::JournalFault;
use crate::store_format::{Header, StoreFault, new_store};
use gl_outside::Disk;

/// Makes a store without snapshots on a disk that has no bytes: writes its 65 bytes, and syncs.
/// `NotEmpty` tells how many bytes there are, and a disk that has some stays as it is. After `Ok` a
/// crash leaves just these 65 bytes; of a crash before it nothing is promised.
pub fn init<D: Disk>(disk: &mut D, header: &Header) -> Result<(), JournalFault>
    requires { IsAllowed header.now }
    ensures bytes { IsTrue D.observable →
        OnOk result ((D.past disk.new).now.seen ≡ store_header header.now ++ 0 ∷ []) }
    ensures images { IsTrue D.observable →
        OnOk result ((image : List ℕ) → images_now (D.past disk.new) image →
        image ≡ store_header header.now ++ 0 ∷ []) }
    ensures stands { IsTrue D.observable →
        OnOk result (AllDecodeTo header.now [] (D.past disk.new)) }
    ensures empty { IsTrue D.observable → OnOk result (length (D.past disk.old).now.seen ≡ 0) }
    ensures fault { IfErr result
        (InitErrorCause (IsTrue D.observable) (length (D.past disk.old).now.seen)
        (D.faults disk.old) (D.faults disk.new)) }
    ensures kept { IsTrue D.observable → 0 < length (D.past disk.old).now.seen →
        D.past disk.new ≡ D.past disk.old }
    ensures same { D.same disk.old disk.new }
    ensures later { D.faults disk.old ≤ D.faults disk.new }
{
    let len = disk.len()?;
    if len > 0 {
        return Err(JournalFault::BadStore(StoreFault::NotEmpty(len)));
    }
    disk.write_at(0, &new_store(*header))?;
    disk.sync()?;
    Ok(())
}
