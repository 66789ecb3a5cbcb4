//! How the store of a job is made.
ghost use Rattle.std.specs.Prelude.{◌≡◌, ◌<◌, ◌≤◌, length, IsTrue, IfErr, OnOk};
ghost use Rattle.store.specs.store_format.Headers.{IsAllowed};
ghost use Rattle.job_io.specs.job_stores.Inner.Making.{IsRefusedBy, no_store_of};
ghost use Rattle.job_io.specs.job_stores.NewStores.{IfDisksTold, IsNewStore, MakeStoreErrorCause, KeepsFilledDisks, UsesDisk};

use gl_outside::{Disk, DiskOf, Files, OpenFault};
use store::snap_journal::{JournalFault, init};
use store::store_format::{Header, StoreFault};

/// Why there is no store.
#[derive(Clone, Copy)]
pub enum StoreError {
    /// The store is refused.
    BadStore(StoreFault),
    /// The store could not be read or written.
    DiskFault,
    /// There was not enough memory.
    NoMemory,
}

/// Makes a store without snapshots in the file of this name, which is made where it is missing: a
/// file that has bytes is refused by `NotEmpty`, and stays as it is. After `Ok` the header and a
/// closed gate are on the disk. After `DiskFault` a file that had no bytes may have any, and after
/// `NoMemory` each has what it had.
pub fn make_store<F: Files>(files: &mut F, name: &str, header: &Header) -> Result<(), StoreError>
    requires { IsAllowed header.now }
    ensures made { OnOk result
        (IfDisksTold F.disks_observable (F.state files.old)
        (IsNewStore header.now ((F.state files.old).pasts name.now)
        ((F.state files.new).pasts name.now))) }
    ensures fault { IfErr result
        (MakeStoreErrorCause F.disks_observable name.now (F.state files.old) (F.state files.new)) }
    ensures kept { KeepsFilledDisks F.disks_observable (F.state files.old) (F.state files.new) }
    ensures used { UsesDisk name.now (F.state files.old) (F.state files.new) }
{
    let file = match files.open_disk(name) {
        Ok(file) => file,
        Err(fault) => return Err(not_opened(fault)),
    };
    make_on(&mut DiskOf::new(files, file), header)
}

/// Makes a store without snapshots on a disk that has no bytes.
fn make_on<D: Disk>(disk: &mut D, header: &Header) -> Result<(), StoreError>
    requires { IsAllowed header.now }
    ensures made { IsTrue D.observable →
        OnOk result (IsNewStore header.now (D.past disk.old) (D.past disk.new)) }
    ensures fault { IfErr result
        (IsRefusedBy (IsTrue D.observable) (D.past disk.old)
        (D.faults disk.old) (D.faults disk.new)) }
    ensures kept { IsTrue D.observable → 0 < length (D.past disk.old).now.seen →
        D.past disk.new ≡ D.past disk.old }
    ensures same { D.same disk.old disk.new }
    ensures later { D.faults disk.old ≤ D.faults disk.new }
{
    match init(disk, header) {
        Ok(()) => Ok(()),
        Err(JournalFault::BadStore(fault)) => Err(StoreError::BadStore(fault)),
        Err(JournalFault::DiskFault) => Err(StoreError::DiskFault),
        Err(JournalFault::Full { .. } | JournalFault::Failed | JournalFault::NoMemory) => {
            unreachable!()
        }
    }
}

/// Why there is no store where its file was not opened.
fn not_opened(fault: OpenFault) -> StoreError
    ensures { result ≡ no_store_of fault }
{
    match fault {
        OpenFault::Failed => StoreError::DiskFault,
        OpenFault::NoMemory => StoreError::NoMemory,
    }
}
