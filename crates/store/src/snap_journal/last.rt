//! The last snapshot of a store.
ghost use Rattle.std.specs.Prelude.{◌≡◌, ◌+◌, ◌^◌, ◌<◌, ◌≤◌, false, IsTrue, IfOk, IfErr, IfSome};
ghost use Rattle.store.specs.snap_journal.Formats.{stored_in, HasSections};
ghost use Rattle.store.specs.snap_journal.Journals.{snapshots_in};
ghost use Rattle.store.specs.snap_journal.Answers.{OpenErrorCause};
ghost use Rattle.store.specs.snap_journal.Last.{FitsHeader, IsLast, LastErrorCause};
ghost use Rattle.store.specs.snap_journal.Inner.Found.{IsFoundBase, is_disk_fault};

use crate::snap_journal::opening::{Found, survey};
use crate::snap_journal::{Journal, JournalFault};
use crate::store_format::{Header, in_order, numbers_of};
use gl_base::{Base, NoMemory};
use gl_outside::Disk;
use std::alloc::Global;

impl<D: Disk> Journal<D> {
    /// The last snapshot, where there is one. It is read again from the disk, with one record in
    /// memory at a time beside the order. After `DiskFault` each later call is refused with
    /// `Failed`: open the store again.
    pub fn last(&mut self, alloc: Global) -> Result<Option<Base>, JournalFault>
        ensures last { IsTrue D.observable →
            IfOk result (IsLast self.old.header (snapshots_in D.past self.old)) }
        ensures fits { IfOk result (λ last. IfSome last (FitsHeader self.old.header)) }
        ensures well { IfOk result (λ last. (self.old.failed ≡ false) × (self.new.failed ≡ false)) }
        ensures refused { IfErr result
            (LastErrorCause (IsTrue D.observable) self.old.failed self.new.failed
            (D.faults self.old.disk)
            (D.faults self.new.disk)) }
        ensures past { IsTrue D.observable → D.past self.new.disk ≡ D.past self.old.disk }
        ensures kept { self.new ≡ record self.old {
          disk = self.new.disk;
          failed = self.new.failed;
        } }
        ensures same { D.same self.old.disk self.new.disk }
        ensures later { D.faults self.old.disk ≤ D.faults self.new.disk }
    {
        if self.failed {
            return Err(JournalFault::Failed);
        }
        match read_last(alloc, &mut self.disk, &self.header) {
            Ok(last) => Ok(last),
            Err(fault) => {
                self.failed = is_disk_fault(&fault);
                Err(fault)
            }
        }
    }
}

/// Whether a fault is one of the disk.
fn is_disk_fault(fault: &JournalFault) -> bool
    ensures { result ≡ is_disk_fault fault.now }
{
    match fault {
        JournalFault::DiskFault => true,
        _ => false,
    }
}

/// Reads the last snapshot of a store, where there is one.
fn read_last<D: Disk>(
    alloc: Global,
    disk: &mut D,
    header: &Header,
) -> Result<Option<Base>, JournalFault>
    ensures last { IsTrue D.observable →
        IfOk result (IsLast header.now (stored_in header.now (D.past disk.old).now.seen)) }
    ensures fits { IfOk result (λ last. IfSome last (FitsHeader header.now)) }
    ensures fault { IfErr result
        (OpenErrorCause (IsTrue D.observable) header.now (D.past disk.old).now.seen
        (D.faults disk.old) (D.faults disk.new)) }
    ensures past { IsTrue D.observable → D.past disk.new ≡ D.past disk.old }
    ensures same { D.same disk.old disk.new }
    ensures later { D.faults disk.old ≤ D.faults disk.new }
{
    let found = survey(alloc, disk, header, true)?;
    if found.count == 0 {
        return Ok(None);
    }
    let base = base_of(alloc, header, found)?;
    Ok(Some(base))
}

/// The snapshot that ends what was found.
fn base_of(alloc: Global, header: &Header, found: Found) -> Result<Base, NoMemory>
    requires within { found.gate + 1 < 2 ^ 64 }
    requires form { HasSections header.now found.body.items }
    ensures { IfOk result
        (IsFoundBase header.now found.count found.gate found.entries.items found.body.items) }
{
    let numbers = numbers_of(alloc, header, &found.body)?;
    let order = in_order(found.entries)?;
    Ok(Base {
        number: found.count,
        order,
        values: numbers.vertices,
        edges: numbers.edges,
        length: found.gate + 1,
    })
}
