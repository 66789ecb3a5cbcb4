//! How a store is opened.
ghost use Rattle.std.specs.Prelude.{◌≡◌, ◌+◌, ◌^◌, ◌<◌, ◌≤◌, ◌++◌, [], ◌∷◌, false, length, IsTrue, IfOk, IfErr, OnOk};
ghost use Rattle.store.specs.snap_journal.Disks.{LeavesOnly, IsImage};
ghost use Rattle.store.specs.snap_journal.Formats.{DecodesTo, records_size, stored_in, HasSections, sections_place};
ghost use Rattle.store.specs.snap_journal.Journals.{snapshots_in, AllDecodeTo};
ghost use Rattle.store.specs.snap_journal.Answers.{OpenErrorCause};
ghost use Rattle.store.specs.snap_journal.Last.{last_body};
ghost use Rattle.store.specs.snap_journal.Inner.Found.{IsFound, entries_kept};
ghost use Rattle.store.specs.snap_journal.Inner.Settled.{IsAtRest};

use crate::snap_journal::disk_reads::read_front;
use crate::snap_journal::records_read::{RecordPlace, next_body};
use crate::snap_journal::{Journal, JournalFault};
use crate::store_format::{HEADER, Header, StoreFault, check_header, push_entries_of};
use gl_base::{Entry, NoMemory};
use gl_outside::Disk;
use std::alloc::Global;

/// What a store is found to have: so many snapshots, the gate behind them at this place, the
/// entries of all records where they were to be kept, and the body of the last one.
#[derive(Drop)]
pub struct Found {
    pub count: u32,
    pub gate: u64,
    pub entries: Vec<Entry>,
    pub body: Vec<u8>,
}

/// Adds the entries of a body where they are to be kept.
fn keep_entries(entries: &mut Vec<Entry>, body: &[u8], keep: bool) -> Result<(), NoMemory>
    requires head { 8 ≤ length body.now }
    requires whole { sections_place body.now ≤ length body.now }
    ensures { OnOk result
        (entries.new.items ≡ entries.old.items ++ entries_kept keep (body.now ∷ [])) }
{
    if keep {
        push_entries_of(entries, body)?;
    }
    Ok(())
}

/// Reads a store from front to back, with one body in memory at a time. The first fault is
/// answered.
pub fn survey<D: Disk>(
    alloc: Global,
    disk: &mut D,
    header: &Header,
    keep: bool,
) -> Result<Found, JournalFault>
    ensures found { IsTrue D.observable →
        IfOk result (λ found.
        IsFound header.now (D.past disk.old).now.seen found.count found.gate) }
    ensures entries { IsTrue D.observable →
        IfOk result (λ found.
        found.entries.items ≡ entries_kept keep (stored_in header.now (D.past disk.old).now.seen)) }
    ensures body { IsTrue D.observable →
        IfOk result (λ found.
        found.body.items ≡ last_body (stored_in header.now (D.past disk.old).now.seen)) }
    ensures form { IfOk result (λ found. 0 < found.count →
        HasSections header.now found.body.items) }
    ensures within { IfOk result (λ found. found.gate + 1 < 2 ^ 64) }
    ensures numbered { IfOk result (λ found. found.count + 1 < 2 ^ 32) }
    ensures fault { IfErr result
        (OpenErrorCause (IsTrue D.observable) header.now (D.past disk.old).now.seen
        (D.faults disk.old) (D.faults disk.new)) }
    ensures past { IsTrue D.observable → D.past disk.new ≡ D.past disk.old }
    ensures same { D.same disk.old disk.new }
    ensures later { D.faults disk.old ≤ D.faults disk.new }
{
    let len = disk.len()?;
    let front = read_front(alloc, disk, 0, HEADER)?;
    check_header(header, &front)?;
    let mut count = 0;
    let mut gate = 64;
    let mut entries = Vec::new(alloc);
    let mut body = Vec::new(alloc);
    'records: while gate <= len {
        let place = RecordPlace {
            number: count + 1,
            at: gate,
            len,
        };
        let more = next_body(alloc, disk, header, place, &mut body)?;
        if !more {
            return Ok(Found {
                count,
                gate,
                entries,
                body,
            });
        }
        keep_entries(&mut entries, &body, keep)?;
        count += 1;
        gate += 9 + body.len() as u64;
    }
    Err(JournalFault::BadStore(StoreFault::Torn(len)))
}

impl<D: Disk> Journal<D> {
    /// Opens a store for this header: syncs it, reads it from front to back, and checks it.
    /// `BadStore` tells its first fault. An
    /// `Err` hands the disk back.
    pub fn open(alloc: Global, disk: D, header: &Header) -> Result<Journal<D>, (JournalFault, D)>
        ensures header { IfOk result (λ journal. (journal.header ≡ header.now) ×
            (journal.failed ≡ false)) }
        ensures bytes { IsTrue D.observable →
            IfOk result (λ journal. (D.past journal.disk).now.seen ≡ (D.past disk).now.seen) }

        // After it all that a crash may leave stands for one list of snapshots, which is the
        // journal's.
        ensures durable { IsTrue D.observable →
            IfOk result (λ journal.
            AllDecodeTo header.now (snapshots_in D.past journal) (D.past journal.disk)) }
        ensures stands { IsTrue D.observable →
            IfOk result (λ journal.
            DecodesTo header.now (snapshots_in D.past journal) (D.past disk).now.seen) }

        ensures counted { IsTrue D.observable →
            IfOk result (λ journal. journal.count ≡ length (snapshots_in D.past journal)) }
        ensures sized { IsTrue D.observable →
            IfOk result (λ journal.
            journal.length ≡ 65 + records_size (snapshots_in D.past journal)) }

        // A crash at any moment of the call leaves what one as it began might have left.
        ensures any_moment { IsTrue D.observable →
            IfOk result (λ journal.
            LeavesOnly (D.past disk) (D.past journal.disk) (IsImage (D.past disk).now)) }
        ensures any_moment_of_fault { IsTrue D.observable →
            IfErr result (λ refused.
            LeavesOnly (D.past disk) (D.past refused.1) (IsImage (D.past disk).now)) }
        ensures fault { IfErr result (λ refused.
            OpenErrorCause (IsTrue D.observable) header.now (D.past disk).now.seen (D.faults disk)
            (D.faults refused.1) refused.0) }
        ensures same { IfOk result (λ journal. D.same disk journal.disk) }
        ensures later { IfOk result (λ journal. D.faults disk ≤ D.faults journal.disk) }
        ensures same_of_fault { IfErr result (λ refused. D.same disk refused.1) }
        ensures later_of_fault { IfErr result (λ refused. D.faults disk ≤ D.faults refused.1) }
    {
        let mut disk = disk;
        match synced_and_read(alloc, &mut disk, header) {
            Ok(found) => Ok(Journal {
                disk,
                header: *header,
                count: found.count,
                gate: found.gate,
                failed: false,
            }),
            Err(fault) => Err((fault, disk)),
        }
    }
}

/// Syncs a store, and reads it.
fn synced_and_read<D: Disk>(
    alloc: Global,
    disk: &mut D,
    header: &Header,
) -> Result<Found, JournalFault>
    ensures found { IsTrue D.observable →
        IfOk result (λ found.
        IsFound header.now (D.past disk.new).now.seen found.count found.gate) }
    ensures bytes { IsTrue D.observable → (D.past disk.new).now.seen ≡ (D.past disk.old).now.seen }
    ensures synced { IsTrue D.observable →
        IfOk result (λ found. IsAtRest (D.past disk.new).now (D.past disk.old).now.seen) }
    ensures within { IfOk result (λ found. found.gate + 1 < 2 ^ 64) }
    ensures any_moment { IsTrue D.observable →
        LeavesOnly (D.past disk.old) (D.past disk.new) (IsImage (D.past disk.old).now) }
    ensures fault { IfErr result
        (OpenErrorCause (IsTrue D.observable) header.now (D.past disk.old).now.seen
        (D.faults disk.old) (D.faults disk.new)) }
    ensures same { D.same disk.old disk.new }
    ensures later { D.faults disk.old ≤ D.faults disk.new }
{
    disk.sync()?;
    survey(alloc, disk, header, false)
}
