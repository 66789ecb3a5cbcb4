//! What is done where a call pauses.
ghost use Rattle.std.specs.Prelude.{List, None, Some, false, ◌≡◌, ◌≢◌, ◌≤◌, ◌^◌, ℕ, IfErr, IfOk, IfSome, IsTrue};
ghost use Rattle.gl_base.specs.declared.numbers.MachineNo.{MachineNo};
ghost use Rattle.store.specs.declared.snap_journal.faults.JournalFault.TheVariants as fault;
ghost use Rattle.engine_runs.specs.declared.answers.runs.StoredEnd.TheVariants as ending;
ghost use Rattle.engine_runs.specs.Calls.{Begins, CallOpening, CanCallGoOn, DiskPast, EndsBy, EndsCall, IsCallAt, IsCallEnded, IsAnyMachineOf, IsNotRefused, IsSameCall, StoppedRunErrorCause, KeepsCall, PauseMeaning, Setting, end_of, end_without};
ghost use Rattle.cluster_step.specs.declared.drive.pauses.Pause.TheVariants as pause;

use crate::answers::StoredEnd;
use crate::append::{AppendFault, append_due};
use crate::calls::StoredCall;
use crate::placed::PlacedProgram;
use crate::rollback::go_back;
use gl_outside::Disk;
use graph_core::Graph;
use std::alloc::Global;
use store::snap_journal::{Journal, JournalFault};
use store::store_format::StoreFault;
use update_api::Program;

/// All machines go back, where one has reached the count of a failure. A fault of the disk ends the
/// run.
pub(crate) fn go_back_from<D: Disk, P: Program>(
    alloc: Global,
    graph: &Graph,
    program: P,
    call: &mut StoredCall<P>,
    journal: &mut Journal<D>,
) -> Result<Option<StoredEnd>, JournalFault>
    requires can { CanCallGoOn graph.now call.old journal.old }
    requires reached { (m : MachineNo) ×
        PauseMeaning (IsAnyMachineOf P.meaning) call.old.trace (pause.Reached m) }
    ensures keeps { IsTrue D.observable →
        KeepsCall P.meaning D.past graph.now (P.meaning program) call.old
        journal.old call.new journal.new }
    ensures ends { IsTrue D.observable →
        IfOk result (λ end. IfSome end
        (EndsCall P.meaning D.past graph.now (P.meaning program) call.old journal.old
        call.new journal.new)) }
    ensures by { IfOk result (λ end.
        IfSome end (EndsBy journal.new (D.faults journal.old.disk) (D.faults journal.new.disk))) }
    ensures on { IfOk result (λ end. end ≡ None → CanCallGoOn graph.now call.new journal.new) }
    ensures short { IfOk result (λ end. end ≡ None → journal.old.length ≤ 2 ^ 30 →
        journal.new.length ≤ 2 ^ 30) }
    ensures refused { IfErr result StoppedRunErrorCause }
    ensures good { IsTrue D.observable → (st : Setting) →
        IsNotRefused P.meaning D.past call.old journal.old st result }
    ensures call { IsSameCall call.old call.new }
    ensures header { journal.new.header ≡ journal.old.header }
    ensures same { D.same journal.old.disk journal.new.disk }
    ensures later { D.faults journal.old.disk ≤ D.faults journal.new.disk }
{
    let length = journal.length();
    let placed = PlacedProgram {
        graph,
        program,
        places: &call.places,
    };
    let back = go_back(
        alloc,
        &mut call.trace,
        journal,
        &placed,
        &mut call.restarts,
        &mut call.lost,
    );
    match back {
        Ok(order) => {
            call.order = order;
            Ok(None)
        }
        Err(why) => end_without(why, length),
    }
}

/// What becomes of a run that could not go back, with a store of so many bytes. A store that is so
/// long that its length with the restarts that it lacks can't be told is refused.
fn end_without(why: JournalFault, length: u64) -> Result<Option<StoredEnd>, JournalFault>
    ensures is { result ≡ end_without why length }
    ensures end { IfOk result (λ end. (end ≡ Some ending.DiskFault) × (why ≡ fault.DiskFault)) }
    ensures refused { why ≢ fault.Failed → IfErr result StoppedRunErrorCause }
{
    match why {
        JournalFault::DiskFault => Ok(Some(StoredEnd::DiskFault)),
        JournalFault::Full { .. } => Err(JournalFault::BadStore(StoreFault::BadByte(length))),
        why => Err(why),
    }
}

/// The snapshot that is due is added to the store. A store that has no room for it ends the run,
/// and so does a fault of the disk.
pub(crate) fn save_due<D: Disk, P: Program>(
    alloc: Global,
    call: &mut StoredCall<P>,
    journal: &mut Journal<D>,
) -> Result<Option<StoredEnd>, JournalFault>
    requires well { journal.old.failed ≡ false }
    requires running { call.old.trace.now.stopped ≡ false }
    requires restarts { Begins call.old.restarts.stored.items call.old.restarts.front.items }
    requires due { (k : ℕ) ×
        PauseMeaning (IsAnyMachineOf P.meaning) call.old.trace (pause.Record k) }
    ensures keeps { IsTrue D.observable →
        (start : List (List ℕ)) (first : DiskPast) (st : Setting) (o : CallOpening) →
        IsCallAt P.meaning D.past call.old journal.old start first st o →
        IsCallAt P.meaning D.past call.new journal.new start first st o }
    ensures ends { IsTrue D.observable →
        IfOk result (λ end. IfSome end (λ how.
        (start : List (List ℕ)) (first : DiskPast) (st : Setting) (o : CallOpening) →
        IsCallAt P.meaning D.past call.old journal.old start first st o →
        IsCallEnded P.meaning D.past call.new journal.new start first st o how)) }
    ensures by { IfOk result (λ end.
        IfSome end (EndsBy journal.new (D.faults journal.old.disk) (D.faults journal.new.disk))) }
    ensures well { IfOk result (λ end. end ≡ None → journal.new.failed ≡ false) }
    ensures restarts { Begins call.new.restarts.stored.items call.new.restarts.front.items }
    ensures short { IfOk result (λ end. end ≡ None → journal.new.length ≤ 2 ^ 30) }
    ensures refused { IfErr result StoppedRunErrorCause }
    ensures good { IsTrue D.observable → (st : Setting) →
        IsNotRefused P.meaning D.past call.old journal.old st result }
    ensures call { IsSameCall call.old call.new }
    ensures header { journal.new.header ≡ journal.old.header }
    ensures same { D.same journal.old.disk journal.new.disk }
    ensures later { D.faults journal.old.disk ≤ D.faults journal.new.disk }
{
    call.snapshots.reserve(1)?;
    let added = append_due(alloc, &mut call.trace, journal, &mut call.restarts);
    let length = journal.length();
    match added {
        Ok(line) => {
            call.snapshots.push_reserved(line);
            Ok(None)
        }
        Err(why) => end_of(why, length),
    }
}

/// How a run ends where the snapshot that is due was not added to a store of so many bytes.
fn end_of(why: AppendFault, length: u64) -> Result<Option<StoredEnd>, JournalFault>
    ensures { result ≡ end_of why length }
{
    match why {
        AppendFault::Full { stored, length } => Ok(Some(StoredEnd::Full { stored, length })),
        AppendFault::DiskFault => Ok(Some(StoredEnd::DiskFault)),
        AppendFault::NotInForm => Err(JournalFault::BadStore(StoreFault::BadByte(length))),
        AppendFault::NoMemory => Err(JournalFault::NoMemory),
    }
}
