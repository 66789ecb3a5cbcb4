//! A run with a store.
ghost use Rattle.std.specs.Prelude.{All, List, [], false, true, length, ◌≡◌, ◌≤◌, ◌<◌, ◌^◌, ◌*◌, ◌+◌, ◌⊎◌, ℕ, IfErr, IfOk, IsErrOf, IsTrue};
ghost use Rattle.gl_base.specs.declared.entries.Entry.{Entry};
ghost use Rattle.gl_base.specs.declared.numbers.Vertex.{Vertex};
ghost use Rattle.graph_core.specs.DataGraph.{size};
ghost use Rattle.store.specs.snap_journal.Disks.{Rose};
ghost use Rattle.store.specs.snap_journal.Journals.{KnowsStore};
ghost use Rattle.store.specs.declared.snap_journal.faults.JournalFault.TheVariants as fault;
ghost use Rattle.store.specs.declared.store_format.faults.StoreFault.{StoreFault};
ghost use Rattle.store.specs.declared.store_format.faults.StoreFault.TheVariants.{BadByte};
ghost use Rattle.engine_runs.specs.Calls.{ArePlacesOf, CallOpening, CanCallGoOn, EndsBy, Header, IsHeaderOf, IsRunAt, Setting, shared_of, snapshots_in};
ghost use Rattle.engine_runs.specs.declared.answers.runs.StoredEnd.TheVariants as ending;
ghost use Rattle.engine_runs.specs.Runs.{FromGoodStore, AreJobFailures, ArePlacedFor, BoundsSteps, CanBeCut, HasCallBegun, HasTraceOf, HasRoomForRun, IsEndAt, IsFinishedOrNoMemory, IsEntryOf, IsGoodStore, IsInRange, IsRunBy, IsRunSo, IsPlacement, IsStoredRun, RunErrorCause, BeginErrorCause, KeepsByOwner, KeepsGood, input_shared, lists_of, machine_plan, refused_by, run_shared, stored_order};
ghost use Rattle.engine_runs.specs.answers.Unstored.{HasRestartsFirst, IsUnstoredRun};
ghost use Rattle.engine_runs.specs.unstored.Inner.Going.{GivesUnstored};
ghost use Rattle.update_api.specs.Updates.{Update};

use crate::answers::{RunInput, SnapLine, StoredEnd, StoredRun};
use crate::calls::StoredCall;
use crate::finish::{CallLists, GatherFault, gather_call};
use crate::start::{Started, start_call};
use crate::steps::play_to_end;
use gl_base::{Entry, FailureAt};
use gl_outside::Disk;
use graph_core::Graph;
use std::alloc::Global;
use std::sync::Wait;
use std::thread::Threads;
use store::snap_journal::{Journal, JournalFault};
use store::store_format::StoreFault;
use update_api::Program;

/// Runs a program on the graph, which is cut so, from what the store has to the end of the run.
/// Machines fail as the failures order, and all go back to the last snapshot that was acknowledged;
/// snapshots are taken as the window asks, and where the plan says so one of the end. Where it
/// resumes, the run goes on from the order of the store's last snapshot, behind which stands a
/// restart; else the store has no snapshot yet.
///
/// The run ends finished, at its budget, at a store that is full, or at a fault of the disk while
/// it goes on. `DiskFault` comes where the disk failed before the run began.
pub fn run_stored<R: Threads + Wait + Sync, D: Disk, P: Program + Send + Sync>(
    rt: &R,
    alloc: Global,
    input: &RunInput<'_>,
    program: P,
    journal: &mut Journal<D>,
    resumed: bool,
) -> Result<StoredRun, JournalFault>
    requires cut { CanBeCut input.now.graph.now input.now.cut.now }
    requires plan { IsInRange input.now.plan.run }
    requires few { input.now.plan.run.machines < 65535 }
    requires failures { AreJobFailures input.now.plan.run.machines input.now.failures.now }
    requires places { length input.now.failures.now ≤ 65536 }
    requires graph { IsHeaderOf input.now.graph.now journal.old.header }
    requires machines { journal.old.header.machines ≡ input.now.plan.run.machines }
    requires fresh { resumed ≡ false → journal.old.count ≡ 0 }
    requires well { journal.old.failed ≡ false }

    // From a store that is good by the owners that the placement gives: what the run is, and what
    // crashes leave.
    ensures run { IsTrue D.observable →
        IfOk result (λ run. FromGoodStore input.now (P.meaning program)
        journal.old.header (snapshots_in D.past journal.old) (λ owner.
        (snapshots : List (List Entry)) ×
        IsStoredRun input.now.plan.saves_end (input_shared input.now (P.meaning program) owner)
        input.now.plan.run.machines input.now.plan.window
        input.now.plan.run.budget journal.old.count
        (stored_order (snapshots_in D.past journal.old)) resumed snapshots run
        × KeepsGood (input_shared input.now (P.meaning program) owner)
        journal.old.header (snapshots_in D.past journal.old) snapshots (D.past journal.old.disk)
        (D.past journal.new.disk))) }

    // From such a store it is a run of machines that the plan asks for: of its kind of engine, with
    // its pipeline.
    ensures engine { IsTrue D.observable →
        IfOk result (λ run. FromGoodStore input.now (P.meaning program)
        journal.old.header (snapshots_in D.past journal.old) (λ owner.
        IsRunBy input.now.graph.now input.now.cut.now (P.meaning program)
        (machine_plan input.now.plan) input.now.failures.now (lists_of run))) }

    // From such a store, that is as long as one may grow or shorter, no run is refused for the
    // store or a record: memory ran out, or the disk failed before the run began.
    ensures good { IsTrue D.observable → FromGoodStore input.now (P.meaning program)
        journal.old.header (snapshots_in D.past journal.old) (λ owner. journal.old.length ≤ 2 ^ 30 →
        (why : StoreFault) → IsErrOf result (fault.BadStore why) → ⊥) }

    // And its budget is not spent, where each attempt has as many tickets as it may need; and the
    // store is not full, where it has room for the run.
    ensures enough { IsTrue D.observable →
        IfOk result (λ run. FromGoodStore input.now (P.meaning program)
        journal.old.header (snapshots_in D.past journal.old) (λ owner.
        (bound : ℕ) → BoundsSteps input.now.graph.now (P.meaning program) bound →
        (1 + length input.now.failures.now) * bound ≤ input.now.plan.run.budget → (left : Vertex) →
        run.end ≡ ending.Spent left → ⊥)) }
    ensures roomy { IsTrue D.observable →
        IfOk result (λ run. FromGoodStore input.now (P.meaning program)
        journal.old.header (snapshots_in D.past journal.old) (λ owner.
        HasRoomForRun input.now.graph.now input.now.plan (length input.now.failures.now)
        journal.old.count journal.old.length →
        (stored long : ℕ) → run.end ≡ ending.Full stored long → ⊥)) }

    // So it finishes, or memory runs out, where the disk does not fail.
    ensures complete { IsTrue D.observable → FromGoodStore input.now (P.meaning program)
        journal.old.header (snapshots_in D.past journal.old) (λ owner.
        (bound : ℕ) → BoundsSteps input.now.graph.now (P.meaning program) bound →
        (1 + length input.now.failures.now) * bound ≤ input.now.plan.run.budget →
        HasRoomForRun input.now.graph.now input.now.plan (length input.now.failures.now)
        journal.old.count journal.old.length →
        (Rose (D.faults journal.old.disk) (D.faults journal.new.disk) → ⊥) →
        IsFinishedOrNoMemory result) }

    // The graph is placed for it, in the one way that there is.
    ensures placed { IfOk result (λ run. (owner : ℕ → ℕ) ×
        IsPlacement input.now.graph.now input.now.cut.now input.now.plan.run.machines owner) }

    ensures by { IfOk result (λ run.
        EndsBy journal.new (D.faults journal.old.disk) (D.faults journal.new.disk) run.end) }
    ensures numbers { IfOk result (λ run. length run.numbers.items ≡ size input.now.graph.now) }
    ensures entries { IfOk result (λ run. All (IsEntryOf input.now.graph.now) run.order.items) }
    ensures refused { IfErr result
        (RunErrorCause (IsTrue D.observable) (D.past journal.old.disk) (D.past journal.new.disk)
        (D.faults journal.old.disk) (D.faults journal.new.disk)
        (KeepsByOwner D.past input.now.graph.now (P.meaning program) input.now.cut.now
        input.now.plan.run.machines input.now.failures.now
        journal.old journal.new)) }
    // What the journal knew of its store, and what it knows behind a run.
    ensures knew { IsTrue D.observable → KnowsStore D.past journal.old }
    ensures knows { IsTrue D.observable →
        IfOk result (λ run. journal.new.failed ≡ false → KnowsStore D.past journal.new) }
    ensures header { journal.new.header ≡ journal.old.header }
    ensures same { D.same journal.old.disk journal.new.disk }
    ensures later { D.faults journal.old.disk ≤ D.faults journal.new.disk }
{
    let call = begin(alloc, input, program, journal, resumed)?;
    match play_to_end(rt, alloc, input.graph, program, call, journal) {
        Ok(ended) => {
            let (call, end) = ended;
            let long = journal.length();
            gathered(alloc, input.graph, input.failures, call, end, long)
        }
        Err(why) => Err(why),
    }
}

/// The call as it starts.
fn begin<D: Disk, P: Program>(
    alloc: Global,
    input: &RunInput<'_>,
    program: P,
    journal: &mut Journal<D>,
    resumed: bool,
) -> Result<StoredCall<P>, JournalFault>
    requires cut { CanBeCut input.now.graph.now input.now.cut.now }
    requires plan { IsInRange input.now.plan.run }
    requires few { input.now.plan.run.machines < 65535 }
    requires failures { AreJobFailures input.now.plan.run.machines input.now.failures.now }
    requires graph { IsHeaderOf input.now.graph.now journal.old.header }
    requires machines { journal.old.header.machines ≡ input.now.plan.run.machines }
    requires fresh { resumed ≡ false → journal.old.count ≡ 0 }
    ensures can { IfOk result (λ call. CanCallGoOn input.now.graph.now call journal.new) }
    ensures begun { IsTrue D.observable →
        IfOk result (λ call. (st : Setting) →
        IsRunAt input.now.graph.now (P.meaning program) call.places st →
        IsGoodStore (shared_of st input.now.failures.now) journal.old.header
        (snapshots_in D.past journal.old) →
        HasCallBegun P.meaning D.past call journal.old journal.new resumed
        input.now.plan.run.budget st) }
    ensures setting { IfOk result (λ call. (st : Setting) ×
        IsRunAt input.now.graph.now (P.meaning program) call.places st ×
        (shared_of st input.now.failures.now ≡ run_shared input.now.graph.now (P.meaning program)
        call.places input.now.failures.now)) }
    ensures places { IfOk result (λ call.
        ArePlacedFor input.now.graph.now input.now.cut.now (machine_plan input.now.plan)
        call.places) }
    ensures failures { IfOk result (λ call. call.trace.failures ≡ input.now.failures.now) }
    ensures saves { IfOk result (λ call. call.saves_end ≡ input.now.plan.saves_end) }
    ensures refused { IfErr result
        (BeginErrorCause journal.old.failed (D.faults journal.old.disk)
        (D.faults journal.new.disk)) }
    ensures good { IsTrue D.observable → journal.old.length ≤ 2 ^ 30 → (why : StoreFault) →
        IsErrOf result (fault.BadStore why) → ⊥ }
    ensures knew { IsTrue D.observable → journal.old.failed ≡ false →
        KnowsStore D.past journal.old }
    ensures long { journal.new.length ≡ journal.old.length }
    ensures past { IsTrue D.observable → D.past journal.new.disk ≡ D.past journal.old.disk }
    ensures header { journal.new.header ≡ journal.old.header }
    ensures same { D.same journal.old.disk journal.new.disk }
    ensures later { D.faults journal.old.disk ≤ D.faults journal.new.disk }
{
    let length = journal.length();
    match start_call(alloc, input, program, journal, resumed) {
        Ok(started) => Ok(call_of(alloc, started, input.plan.saves_end)),
        Err(why) => Err(refused_by(why, length)),
    }
}

/// The call that has started, whose end is saved or not.
pub(crate) fn call_of<P: Program>(
    alloc: Global,
    started: Started<P>,
    saves_end: bool,
) -> StoredCall<P>
    ensures trace { result.trace ≡ started.trace }
    ensures places { result.places ≡ started.places }
    ensures restarts { result.restarts ≡ started.restarts }
    ensures order { result.order ≡ started.order }
    ensures lost { result.lost.items ≡ [] }
    ensures snapshots { result.snapshots.items ≡ [] }
    ensures saves { result.saves_end ≡ saves_end }
{
    let Started {
        trace,
        places,
        order,
        restarts,
    } = started;
    StoredCall {
        trace,
        places,
        restarts,
        order,
        lost: Vec::new(alloc),
        snapshots: Vec::new(alloc),
        saves_end,
    }
}

/// Why a call did not begin with a store of so many bytes. One that is so long that its length
/// can't be told is refused.
fn refused_by(why: JournalFault, length: u64) -> JournalFault
    ensures { result ≡ refused_by why length }
{
    match why {
        JournalFault::Full { .. } => JournalFault::BadStore(StoreFault::BadByte(length)),
        why => why,
    }
}

/// The run of a call that ended so, whose store has so many bytes.
pub(crate) fn gathered<P: Program>(
    alloc: Global,
    graph: &Graph,
    failures: &[FailureAt],
    call: StoredCall<P>,
    end: StoredEnd,
    long: u64,
) -> Result<StoredRun, JournalFault>
    requires places { ArePlacesOf graph.now (length call.trace.now.machines.items) call.places }
    requires failures { call.trace.failures ≡ failures.now }
    requires few { length failures.now ≤ 65536 }
    requires running { call.trace.now.stopped ≡ false }
    ensures run { IfOk result (λ run.
        (program : Update) (header : Header) (start added : List (List ℕ)) (st : Setting)
        (o : CallOpening) → IsRunAt graph.now program call.places st →
        IsEndAt P.meaning call header start added st o end → st.stored ≡ true →
        IsRunSo call.saves_end st failures.now o start added run) }
    ensures alone { IfOk result (λ run. (program : Update) (header : Header) (st : Setting)
        (o : CallOpening) → IsRunAt graph.now program call.places st →
        (at : IsEndAt P.meaning call header [] [] st o end) → o.resumed ≡ false →
        GivesUnstored P.meaning at.paused st at.known.was.cluster end →
        HasRestartsFirst run.order.items →
        IsUnstoredRun (shared_of st failures.now) st.machines o.first.left run) }
    ensures trace { IfOk result (λ run.
        (program : Update) (header : Header) (start added : List (List ℕ)) (st : Setting)
        (o : CallOpening) → IsRunAt graph.now program call.places st →
        (at : IsEndAt P.meaning call header start added st o end) →
        HasTraceOf failures.now st o at.known.was.events at.known.was.cluster (lists_of run)) }
    ensures end { IfOk result (λ run. run.end ≡ end) }
    ensures numbers { IfOk result (λ run. length run.numbers.items ≡ size graph.now) }
    ensures entries { IfOk result (λ run. All (IsEntryOf graph.now) run.order.items) }
    ensures other { IfErr result (λ why. (why ≡ fault.NoMemory) ⊎
        ((why ≡ fault.BadStore (BadByte long)) ×
        ((program : Update) (header : Header) (start added : List (List ℕ))
        (st : Setting) (o : CallOpening) →
        IsRunAt graph.now program call.places st →
        IsEndAt P.meaning call header start added st o end → ⊥))) }
{
    let StoredCall {
        trace,
        places,
        restarts,
        order,
        lost,
        snapshots,
        ..
    } = call;
    drop(restarts);
    match gather_call(alloc, graph, &trace, &places, failures, order) {
        Ok(lists) => {
            drop(trace);
            drop(places);
            Ok(run_of(lists, lost, snapshots, end))
        }
        Err(GatherFault::OtherGraph) => {
            drop(trace);
            drop(places);
            Err(JournalFault::BadStore(StoreFault::BadByte(long)))
        }
        Err(GatherFault::NoMemory) => {
            drop(trace);
            drop(places);
            Err(JournalFault::NoMemory)
        }
    }
}

/// The run with these lists, and these updates that failures took away.
fn run_of(lists: CallLists, lost: Vec<Entry>, snapshots: Vec<SnapLine>, end: StoredEnd) -> StoredRun
    ensures { result ≡ record {
      order = lists.order;
      lost = lost;
      done = lists.done;
      fired = lists.fired;
      snapshots = snapshots;
      numbers = lists.numbers;
      end = end;
    } }
{
    StoredRun {
        order: lists.order,
        lost,
        done: lists.done,
        fired: lists.fired,
        snapshots,
        numbers: lists.numbers,
        end,
    }
}
