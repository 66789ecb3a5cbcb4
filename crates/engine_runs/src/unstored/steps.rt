//! A call without a store goes on, pause by pause, until it ends.
ghost use Rattle.std.specs.Prelude.{List, ◌≡◌, ℕ, IfOk, IfSome, OnOk};
ghost use Rattle.engine_runs.specs.unstored.Inner.Going.{CallOpening, CanGoOnUnstored, EndsCallUnstored, GoesOnUnstored, Header, IsAnyMachineOf, IsKnownAt, IsSameCall, PausesUnsaved, Setting};
ghost use Rattle.gl_base.specs.declared.numbers.MachineNo.{MachineNo};

use crate::answers::StoredEnd;
use crate::calls::StoredCall;
use crate::finish::task_left;
use crate::placed::PlacedProgram;
use crate::rollback::go_back_to_start;
use crate::threads::go_on_threads;
use cluster_step::drive::{UnsavedPause, drive_unsaved};
use gl_base::NoMemory;
use graph_core::Graph;
use std::alloc::Global;
use std::sync::Wait;
use std::thread::Threads;
use update_api::Program;

/// Goes on until the run ends: on threads, and then to the next pause, again and again. Returns the
/// call as it ended. `NoMemory` drops the call.
pub(crate) fn play_unstored<R: Threads + Wait + Sync, P: Program + Send + Sync>(
    rt: &R,
    alloc: Global,
    graph: &Graph,
    program: P,
    call: StoredCall<P>,
) -> Result<(StoredCall<P>, StoredEnd), NoMemory>
    requires { CanGoOnUnstored graph.now call }
    ensures on { IfOk result (λ ended.
        GoesOnUnstored P.meaning graph.now (P.meaning program) call ended.0) }
    ensures ends { IfOk result (λ ended. EndsCallUnstored P.meaning ended.0 ended.1) }
{
    let mut call = call;
    for _ in rt.forever() {
        let mut on = go_on_threads(rt, alloc, call)?;
        match step(rt, alloc, graph, program, &mut on) {
            Ok(None) => call = on,
            Ok(Some(end)) => return Ok((on, end)),
            Err(NoMemory) => {
                drop(on);
                return Err(NoMemory);
            }
        }
    }
    unreachable!()
}

/// Goes on to the next pause. All go back to the start where a machine has reached the count of a
/// failure. Says how the run ended, where it has.
fn step<R: Wait, P: Program>(
    rt: &R,
    alloc: Global,
    graph: &Graph,
    program: P,
    call: &mut StoredCall<P>,
) -> Result<Option<StoredEnd>, NoMemory>
    requires { CanGoOnUnstored graph.now call.old }
    ensures on { IfOk result (λ end.
        GoesOnUnstored P.meaning graph.now (P.meaning program) call.old call.new) }
    ensures ends { IfOk result (λ end. IfSome end (EndsCallUnstored P.meaning call.new)) }
{
    match go_on(rt, call)? {
        UnsavedPause::Reached(_) => {
            go_back_from(alloc, graph, program, call)?;
            Ok(None)
        }
        UnsavedPause::Quiet => Ok(Some(StoredEnd::Finished)),
        UnsavedPause::Spent => Ok(Some(StoredEnd::Spent(task_left(&call.trace)))),
    }
}

/// Goes on to the next pause.
fn go_on<R: Wait, P: Program>(rt: &R, call: &mut StoredCall<P>) -> Result<UnsavedPause, NoMemory>
    ensures known { (header : Header) (start bodies : List (List ℕ))
        (st : Setting) (o : CallOpening) →
        IsKnownAt P.meaning call.old.trace call.old header start bodies st o →
        IsKnownAt P.meaning call.new.trace call.new header start bodies st o }
    ensures pause { IfOk result (PausesUnsaved (IsAnyMachineOf P.meaning) call.new.trace) }
    ensures same { call.new ≡ record call.old { trace = call.new.trace } }
    ensures attempt { IsSameCall call.old call.new }
{
    call.trace.remember();
    drive_unsaved(rt, &mut call.trace)
}

/// All machines go back to the start, where one has reached the count of a failure.
fn go_back_from<P: Program>(
    alloc: Global,
    graph: &Graph,
    program: P,
    call: &mut StoredCall<P>,
) -> Result<(), NoMemory>
    requires can { CanGoOnUnstored graph.now call.old }
    requires reached { (m : MachineNo) ×
        PausesUnsaved (IsAnyMachineOf P.meaning) call.old.trace (UnsavedPause.Reached m) }
    ensures { OnOk result
        (GoesOnUnstored P.meaning graph.now (P.meaning program) call.old call.new) }
{
    let placed = PlacedProgram {
        graph,
        program,
        places: &call.places,
    };
    let order = go_back_to_start(
        alloc,
        &mut call.trace,
        &placed,
        &mut call.restarts,
        &mut call.lost,
    )?;
    call.order = order;
    Ok(())
}
