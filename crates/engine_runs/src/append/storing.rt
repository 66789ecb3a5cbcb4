//! A record is checked, and put into a journal.
ghost use Rattle.std.specs.Prelude.{◌≡◌, ◌+◌, ◌^◌, ◌≤◌, ◌↔◌, false, length, IfErr, IfOk, IsTrue, OnErr, OnOk};
ghost use Rattle.engine_runs.specs.append.Appends.{IsInForm, LeavesOnly, snapshots_in, stored_order};
ghost use Rattle.engine_runs.specs.append.Folds.{IsFoldOf};
ghost use Rattle.engine_runs.specs.append.Inner.Numbers.{NumbersFit};
ghost use Rattle.engine_runs.specs.append.Inner.Storing.{HasStored, IsFaultOfAppend, FoldErrorCause, PutErrorCause, StoreRecordErrorCause, IsWithRecord, append_fault};
ghost use Rattle.engine_runs.specs.answers.Lines.{fold_in};

use crate::answers::SnapLine;
use crate::append::faults::AppendFault;
use crate::append::numbers::{fold_of, look_over};
use gl_base::{NoMemory, Record};
use gl_outside::Disk;
use graph_text::sync_folds::Fold;
use recovery::restarts::Restarts;
use std::alloc::Global;
use store::snap_journal::{Journal, JournalFault};
use store::store_format::{Header, is_record};

/// Puts a record into a journal, where it is in the form of the store; from then on the store has
/// the restarts of the newest attempt.
pub(crate) fn store_record<D: Disk>(
    alloc: Global,
    journal: &mut Journal<D>,
    restarts: &mut Restarts,
    made: &Record,
) -> Result<SnapLine, AppendFault>
    requires { journal.old.failed ≡ false }
    ensures stored { OnOk result
        (HasStored (IsTrue D.observable) D.past journal.old journal.new made.now) }
    ensures number { IfOk result (λ line. line.number ≡ made.now.number) }
    ensures entries { IsTrue D.observable →
        IfOk result (λ line.
        line.entries ≡ length (stored_order (snapshots_in D.past journal.new))) }
    ensures fold { IfOk result (λ line. IsFoldOf journal.old.header.n made.now (fold_in line)) }
    ensures restarts { OnOk result ((restarts.new.front ≡ restarts.old.front) ×
        (restarts.new.stored.items ≡ restarts.old.front.items)) }
    ensures kept { OnErr result (restarts.new ≡ restarts.old) }
    ensures any_moment { IsTrue D.observable →
        LeavesOnly (D.past journal.old.disk) (D.past journal.new.disk)
        (IsWithRecord journal.old.header journal.old.count
        (snapshots_in D.past journal.old) made.now) }
    ensures short { OnOk result (journal.new.length ≤ 2 ^ 30) }
    ensures refused { IfErr result
        (StoreRecordErrorCause journal.old journal.new (D.faults journal.old.disk)
        (D.faults journal.new.disk) made.now) }
    ensures fits { NumbersFit made.now }
    ensures header { journal.new.header ≡ journal.old.header }
    ensures disk { D.same journal.old.disk journal.new.disk }
    ensures later { D.faults journal.old.disk ≤ D.faults journal.new.disk }
{
    look_over(made);
    let header = journal.header();
    let fold = fold_in_form(alloc, &header, journal.count(), made)?;
    let known = Vec::from_slice(alloc, &restarts.front)?;
    put(alloc, journal, made)?;
    restarts.stored = known;
    Ok(SnapLine {
        number: made.number,
        entries: journal.entries(),
        reached: fold.reached,
        sum: fold.sum,
        max: fold.max,
    })
}

/// What the numbers of the vertices of a record come to, where it is in the form of a store of so
/// many snapshots.
fn fold_in_form(
    alloc: Global,
    header: &Header,
    stored: u32,
    made: &Record,
) -> Result<Fold, AppendFault>
    ensures form { OnOk result (IsInForm header.now stored made.now) }
    ensures fold { IfOk result (IsFoldOf header.now.n made.now) }
    ensures refused { IfErr result (FoldErrorCause header.now stored made.now) }
{
    if !is_in_form(alloc, header, stored, made)? {
        return Err(AppendFault::NotInForm);
    }
    Ok(fold_of(alloc, header.n, made)?)
}

/// Whether a record has the number that is next in a store of so many snapshots, and its form.
fn is_in_form(alloc: Global, header: &Header, stored: u32, made: &Record) -> Result<bool, NoMemory>
    ensures { IfOk result (λ yes. IsTrue yes ↔ IsInForm header.now stored made.now) }
{
    if u64::from(made.number) != u64::from(stored) + 1 {
        return Ok(false);
    }
    is_record(alloc, header, made.number, made)
}

/// Puts a record that is in the form of the store into its journal.
fn put<D: Disk>(alloc: Global, journal: &mut Journal<D>, made: &Record) -> Result<(), AppendFault>
    requires well { journal.old.failed ≡ false }
    requires form { IsInForm journal.old.header journal.old.count made.now }
    ensures stored { OnOk result
        (HasStored (IsTrue D.observable) D.past journal.old journal.new made.now) }
    ensures any_moment { IsTrue D.observable →
        LeavesOnly (D.past journal.old.disk) (D.past journal.new.disk)
        (IsWithRecord journal.old.header journal.old.count
        (snapshots_in D.past journal.old) made.now) }
    ensures short { OnOk result (journal.new.length ≤ 2 ^ 30) }
    ensures refused { IfErr result
        (PutErrorCause journal.old journal.new (D.faults journal.old.disk)
        (D.faults journal.new.disk) made.now) }
    ensures header { journal.new.header ≡ journal.old.header }
    ensures disk { D.same journal.old.disk journal.new.disk }
    ensures later { D.faults journal.old.disk ≤ D.faults journal.new.disk }
{
    match journal.append(alloc, made) {
        Ok(()) => Ok(()),
        Err(fault) => Err(append_fault(fault)),
    }
}

/// A fault of a journal that had not failed, and whose bytes are a store.
fn append_fault(fault: JournalFault) -> AppendFault
    requires { IsFaultOfAppend fault }
    ensures { result ≡ append_fault fault }
{
    match fault {
        JournalFault::Full { stored, length } => AppendFault::Full { stored, length },
        JournalFault::DiskFault => AppendFault::DiskFault,
        JournalFault::NoMemory => AppendFault::NoMemory,
        JournalFault::BadStore(_) | JournalFault::Failed => unreachable!(),
    }
}
