//! The journal: snapshots on a disk, each whole on it before it is acknowledged.
ghost use Rattle.std.specs.Prelude.{◌≡◌, ◌⊎◌, ℕ, ◌+◌, ◌^◌, ◌<◌, ◌≤◌, ◌++◌, List, [], ◌∷◌, true, false, Ok, Err, length, IsTrue, IfOk, IfErr, OnOk, OnErr, IsErr};
ghost use Rattle.store.specs.snap_journal.Disks.{LeavesOnly};
ghost use Rattle.store.specs.snap_journal.Formats.{IsBody, body_bytes, RecordFits, IsBeforeOrAfter, records_size, stored_order};
ghost use Rattle.store.specs.snap_journal.Journals.{snapshots_in, AllDecodeTo, KnowsStore};
ghost use Rattle.store.specs.snap_journal.Answers.{IsFullFor, JournalAppendErrorCause};
ghost use Rattle.store.specs.snap_journal.Inner.Settled.{FollowsOn, body_between};

use crate::snap_journal::JournalFault;
use crate::store_format::{Header, body_size, stored_bytes};
use gl_base::{MAX_SNAPSHOTS, MAX_STORE_BYTES, Record};
use gl_outside::Disk;
use std::alloc::Global;
use std::marker::Model;

/// A store on a disk, read and checked. Contracts see its disk, what it is for, how many snapshots
/// and bytes it has, and whether an earlier call answered `DiskFault`: then it has to be opened
/// again.
#[derive(Drop)]
pub struct Journal<D: Disk> {
    pub(crate) disk: D,
    pub(crate) header: Header,
    pub(crate) count: u32,
    // The place of the gate behind the last record.
    pub(crate) gate: u64,
    pub(crate) failed: bool,
}

impl<D: Disk> Model for Journal<D> {
    ghost use Rattle.std.specs.Prelude.{◌+◌, IsTrue};
    ghost use Rattle.store.specs.snap_journal.Journals.{JournalState};
    ghost use Rattle.store.specs.snap_journal.Inner.Settled.{KnowsDisk};

    ghost Value = { JournalState D };

    ghost view = { λ j. record {
      disk = j.disk;
      header = j.header;
      count = j.count;
      length = j.gate + 1;
      failed = j.failed;
    } };

    ghost invariant = { λ j.
        KnowsDisk (IsTrue D.observable) j.header j.count j.gate j.failed (D.past j.disk) };
}

impl<D: Disk> Journal<D> {
    /// How many snapshots are stored. Whatever a crash now leaves has them.
    pub fn count(&self) -> u32
        ensures count { result ≡ self.now.count }
        ensures stored { IsTrue D.observable → self.now.failed ≡ false →
            result ≡ length (snapshots_in D.past self.now) }
        ensures durable { IsTrue D.observable → self.now.failed ≡ false →
            AllDecodeTo self.now.header (snapshots_in D.past self.now) (D.past self.now.disk) }
    {
        self.count
    }

    /// What the store is for.
    pub fn header(&self) -> Header
        ensures { result ≡ self.now.header }
    {
        self.header
    }

    /// How many bytes the store has. Whatever a crash now leaves has its snapshots.
    pub fn length(&self) -> u64
        ensures length { result ≡ self.now.length }
        ensures stored { IsTrue D.observable → self.now.failed ≡ false →
            result ≡ 65 + records_size (snapshots_in D.past self.now) }
        ensures knows { IsTrue D.observable → self.now.failed ≡ false →
            KnowsStore D.past self.now }
    {
        self.gate + 1
    }

    /// How many entries the order of the last snapshot has: by the store's length, since all else
    /// of a record has one size.
    pub fn entries(&self) -> u64
        ensures { IsTrue D.observable → self.now.failed ≡ false →
            result ≡ length (stored_order (snapshots_in D.past self.now)) }
    {
        let apart = 64 + u128::from(self.count) * (9 + u128::from(body_size(&self.header, 0)));
        (u128::from(self.gate).saturating_sub(apart) / 16) as u64
    }

    /// Hands the disk back.
    pub fn into_disk(self) -> D
        ensures { result ≡ self.disk }
    {
        self.disk
    }

    /// Adds the record of a snapshot, whose number is one above those that are stored, in the form
    /// of a store for this header. At `Ok` it is acknowledged: whatever a crash leaves from then on
    /// has it. A crash during the call leaves the snapshots from before it, or these and the new
    /// one. It takes its memory before it writes. `Full` comes where 4096 snapshots are stored, or
    /// the store would have more than 2 to the 30th bytes. After `DiskFault` either may be there,
    /// and each later call is refused with `Failed`: open the store again.
    pub fn append(&mut self, alloc: Global, next: &Record) -> Result<(), JournalFault>
        requires fits { RecordFits next.now }
        requires form { IsBody self.old.header (1 + self.old.count) (body_bytes next.now) }

        ensures acknowledged { IsTrue D.observable →
            OnOk result (snapshots_in D.past self.new ≡ snapshots_in D.past
            self.old ++ body_bytes next.now ∷ []) }
        ensures durable { IsTrue D.observable →
            OnOk result (AllDecodeTo self.new.header
            (snapshots_in D.past self.old ++ body_bytes next.now ∷ []) (D.past self.new.disk)) }

        // A crash at any moment of the call.
        ensures any_moment { IsTrue D.observable → self.old.failed ≡ false →
            LeavesOnly (D.past self.old.disk) (D.past self.new.disk)
            (IsBeforeOrAfter self.old.header (snapshots_in D.past self.old) (body_bytes next.now)) }

        ensures header { self.new.header ≡ self.old.header }
        ensures counted { OnOk result (self.new.count ≡ self.old.count + 1) }
        ensures grown { OnOk result
            (self.new.length ≡ self.old.length + (9 + length (body_bytes next.now))) }
        ensures well { OnOk result ((self.old.failed ≡ false) × (self.new.failed ≡ false)) }
        ensures refused { IfErr result
            (JournalAppendErrorCause (self.new ≡ self.old) self.old.failed self.new.failed
            (D.faults self.old.disk)
            (D.faults self.new.disk) self.old.count self.old.length
            (9 + length (body_bytes next.now))) }
        ensures failed { self.old.failed ≡ true → result ≡ Err JournalFault.Failed }
        ensures full { self.old.failed ≡ false →
            IsFullFor self.old.count self.old.length (9 + length (body_bytes next.now))
            → (result ≡ Err (JournalFault.Full self.old.count self.old.length)) ⊎
            (result ≡ Err JournalFault.NoMemory) }
        ensures same { D.same self.old.disk self.new.disk }
        ensures later { D.faults self.old.disk ≤ D.faults self.new.disk }
    {
        if self.failed {
            return Err(JournalFault::Failed);
        }
        let piece = stored_bytes(alloc, next)?;
        self.put(&piece)
    }

    /// Adds a record, by its bytes behind the gate: writes them with a closed gate behind them,
    /// syncs, opens the gate, and syncs.
    fn put(&mut self, piece: &[u8]) -> Result<(), JournalFault>
        requires follows { FollowsOn self.old.header self.old.count piece.now }
        requires well { self.old.failed ≡ false }

        ensures acknowledged { IsTrue D.observable →
            OnOk result (snapshots_in D.past self.new ≡ snapshots_in D.past
            self.old ++ body_between piece.now ∷ []) }
        ensures durable { IsTrue D.observable →
            OnOk result (AllDecodeTo self.new.header
            (snapshots_in D.past self.old ++ body_between piece.now ∷ []) (D.past self.new.disk)) }
        ensures any_moment { IsTrue D.observable →
            LeavesOnly (D.past self.old.disk) (D.past self.new.disk)
            (IsBeforeOrAfter self.old.header (snapshots_in D.past self.old)
            (body_between piece.now)) }
        ensures header { self.new.header ≡ self.old.header }
        ensures counted { OnOk result (self.new.count ≡ self.old.count + 1) }
        ensures grown { OnOk result (self.new.length ≡ self.old.length + length piece.now) }
        ensures well { OnOk result (self.new.failed ≡ false) }
        ensures refused { IfErr result
            (JournalAppendErrorCause (self.new ≡ self.old) self.old.failed self.new.failed
            (D.faults self.old.disk)
            (D.faults self.new.disk) self.old.count self.old.length (length piece.now)) }
        ensures full { IsFullFor self.old.count self.old.length (length piece.now)
            → result ≡ Err (JournalFault.Full self.old.count self.old.length) }
        ensures same { D.same self.old.disk self.new.disk }
        ensures later { D.faults self.old.disk ≤ D.faults self.new.disk }
    {
        if is_full(self.count, self.gate + 1, piece.len()) {
            return Err(JournalFault::Full {
                stored: self.count,
                length: self.gate + 1,
            });
        }
        self.failed = true;
        self.disk.write_at(self.gate + 1, piece)?;
        self.disk.sync()?;
        self.disk.write_at(self.gate, &[1])?;
        self.disk.sync()?;
        self.count += 1;
        self.gate += piece.len() as u64;
        self.failed = false;
        Ok(())
    }
}

/// Whether a store has no room for a record of so many bytes.
fn is_full(count: u32, length: u64, size: usize) -> bool
    ensures full { IsTrue result → IsFullFor count length size }
    ensures room { result ≡ false → count < 4096 }
    ensures small { result ≡ false → length + size ≤ 2 ^ 30 }
{
    count >= MAX_SNAPSHOTS
        || size as u64 > MAX_STORE_BYTES
        || length > MAX_STORE_BYTES - size as u64
}
