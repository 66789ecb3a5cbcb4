//! A call goes on, pause by pause, until it ends.
ghost use Rattle.std.specs.Prelude.{List, None, false, ◌≡◌, ◌≤◌, ◌^◌, ℕ, IfErr, IfOk, IfSome, IsTrue};
ghost use Rattle.engine_runs.specs.Calls.{CallOpening, CanCallGoOn, EndsBy, EndsCall, HasGoneOn, Header, IsAnyMachineOf, IsKnownAt, IsNotRefused, IsRunAt, IsSameCall, StoppedRunErrorCause, KeepsCall, PauseMeaning, Setting};

use crate::answers::StoredEnd;
use crate::calls::StoredCall;
use crate::finish::task_left;
use crate::pauses::{go_back_from, save_due};
use crate::threads::go_on_threads;
use cluster_step::drive::{Pause, drive};
use gl_base::NoMemory;
use gl_outside::Disk;
use graph_core::Graph;
use std::alloc::Global;
use std::sync::Wait;
use std::thread::Threads;
use store::snap_journal::{Journal, JournalFault};
use update_api::Program;

/// Goes on until the run ends: on threads, and then to the next pause, again and again. Returns the
/// call as it ended. An error drops the call.
pub(crate) fn play_to_end<R: Threads + Wait + Sync, D: Disk, P: Program + Send + Sync>(
    rt: &R,
    alloc: Global,
    graph: &Graph,
    program: P,
    call: StoredCall<P>,
    journal: &mut Journal<D>,
) -> Result<(StoredCall<P>, StoredEnd), JournalFault>
    requires can { CanCallGoOn graph.now call journal.old }
    ensures keeps { IfErr result (λ why.
        HasGoneOn P.meaning D.past (IsTrue D.observable) graph.now (P.meaning program) call
        journal.old journal.new) }
    ensures ends { IsTrue D.observable →
        IfOk result (λ ended. EndsCall P.meaning D.past graph.now (P.meaning program) call
        journal.old ended.0 journal.new ended.1) }
    ensures by { IfOk result (λ ended.
        EndsBy journal.new (D.faults journal.old.disk) (D.faults journal.new.disk) ended.1) }
    ensures refused { IfErr result StoppedRunErrorCause }
    ensures good { IsTrue D.observable → (st : Setting) →
        IsRunAt graph.now (P.meaning program) call.places st →
        IsNotRefused P.meaning D.past call journal.old st result }
    ensures call { IfOk result (λ ended. IsSameCall call ended.0) }
    ensures header { journal.new.header ≡ journal.old.header }
    ensures same { D.same journal.old.disk journal.new.disk }
    ensures later { D.faults journal.old.disk ≤ D.faults journal.new.disk }
{
    let mut call = call;
    for _ in rt.forever() {
        let mut on = go_on_threads(rt, alloc, call)?;
        match step(rt, alloc, graph, program, &mut on, journal) {
            Ok(None) => call = on,
            Ok(Some(end)) => return Ok((on, end)),
            Err(why) => {
                drop(on);
                return Err(why);
            }
        }
    }
    unreachable!()
}

/// Goes on to the next pause, and does what is asked there: all go back where a machine has reached
/// the count of a failure, and a snapshot that is due is added to the store. Says how the run
/// ended, where it has: a store that has as many snapshots as may be ends it before the budget
/// does.
fn step<R: Wait, D: Disk, P: Program>(
    rt: &R,
    alloc: Global,
    graph: &Graph,
    program: P,
    call: &mut StoredCall<P>,
    journal: &mut Journal<D>,
) -> Result<Option<StoredEnd>, JournalFault>
    requires can { CanCallGoOn graph.now call.old journal.old }
    ensures keeps { IsTrue D.observable →
        KeepsCall P.meaning D.past graph.now (P.meaning program) call.old
        journal.old call.new journal.new }
    ensures ends { IsTrue D.observable →
        IfOk result (λ end. IfSome end
        (EndsCall P.meaning D.past graph.now (P.meaning program) call.old journal.old
        call.new journal.new)) }
    ensures by { IfOk result (λ end.
        IfSome end (EndsBy journal.new (D.faults journal.old.disk) (D.faults journal.new.disk))) }
    ensures on { IfOk result (λ end. end ≡ None → CanCallGoOn graph.now call.new journal.new) }
    ensures short { IfOk result (λ end. end ≡ None → journal.old.length ≤ 2 ^ 30 →
        journal.new.length ≤ 2 ^ 30) }
    ensures refused { IfErr result StoppedRunErrorCause }
    ensures good { IsTrue D.observable → (st : Setting) →
        IsNotRefused P.meaning D.past call.old journal.old st result }
    ensures call { IsSameCall call.old call.new }
    ensures header { journal.new.header ≡ journal.old.header }
    ensures same { D.same journal.old.disk journal.new.disk }
    ensures later { D.faults journal.old.disk ≤ D.faults journal.new.disk }
{
    match go_on(rt, call)? {
        Pause::Reached(_) => go_back_from(alloc, graph, program, call, journal),
        Pause::Record(_) => save_due(alloc, call, journal),
        Pause::Ended => Ok(Some(StoredEnd::Finished)),
        Pause::Quiet => Ok(Some(StoredEnd::Finished)),
        Pause::Full => Ok(Some(StoredEnd::Full {
            stored: journal.count(),
            length: journal.length(),
        })),
        Pause::Spent => Ok(Some(StoredEnd::Spent(task_left(&call.trace)))),
    }
}

/// Goes on to the next pause.
fn go_on<R: Wait, P: Program>(rt: &R, call: &mut StoredCall<P>) -> Result<Pause, NoMemory>
    ensures known { (header : Header) (start bodies : List (List ℕ))
        (st : Setting) (o : CallOpening) →
        IsKnownAt P.meaning call.old.trace call.old header start bodies st o →
        IsKnownAt P.meaning call.new.trace call.new header start bodies st o }
    ensures pause { IfOk result (PauseMeaning (IsAnyMachineOf P.meaning) call.new.trace) }
    ensures unsaved { IfOk result (λ pause. pause ≡ Pause.Quiet → call.old.saves_end ≡ false) }
    ensures same { call.new ≡ record call.old { trace = call.new.trace } }
    ensures attempt { IsSameCall call.old call.new }
{
    call.trace.remember();
    drive(rt, &mut call.trace, call.saves_end)
}
