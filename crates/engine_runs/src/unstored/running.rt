//! A run without a store.
ghost use Rattle.std.specs.Prelude.{All, List, None, [], false, length, ◌≡◌, ◌≤◌, ◌<◌, ◌*◌, ◌+◌, ℕ, IfErr, IfOk};
ghost use Rattle.engine_runs.specs.Runs.{AreJobFailures, ArePlacedFor, BoundsSteps, CanBeCut, IsEndAt, IsEntryOf, IsInRange, IsPlacement, IsRunBy, lists_of, owned_shared};
ghost use Rattle.engine_runs.specs.answers.Unstored.{IsUnstoredRun};
ghost use Rattle.engine_runs.specs.declared.answers.runs.StoredEnd.TheVariants as ending;
ghost use Rattle.engine_runs.specs.unstored.Inner.Going.{CallOpening, CanGoOnUnstored, HasBegunUnstored, Header, IsHeaderOf, IsRunAt, Setting};
ghost use Rattle.gl_base.specs.declared.numbers.Vertex.{Vertex};
ghost use Rattle.graph_core.specs.DataGraph.{IsDataGraph, size};
ghost use Rattle.store.specs.declared.snap_journal.faults.JournalFault.TheVariants as fault;
ghost use Rattle.update_api.specs.Updates.{Update};

use crate::answers::{MachinePlan, StoredEnd, StoredRun, UnstoredInput};
use crate::calls::StoredCall;
use crate::running::{call_of, gathered};
use crate::start::start_unstored;
use crate::unstored::steps::play_unstored;
use gl_base::{FailureAt, NoMemory};
use graph_atoms::atom_gather::Cut;
use graph_core::Graph;
use std::alloc::Global;
use std::sync::Wait;
use std::thread::Threads;
use store::snap_journal::JournalFault;
use update_api::Program;

/// Runs a program on the graph, which is cut so, from the start to the end of the run, without a
/// store. Machines fail as the failures order, and all go back to the start, since no snapshot is
/// taken. The run ends finished or at its budget, and is refused for want of memory alone.
pub fn run_unstored<R: Threads + Wait + Sync, P: Program + Send + Sync>(
    rt: &R,
    alloc: Global,
    input: &UnstoredInput<'_>,
    program: P,
) -> Result<StoredRun, NoMemory>
    requires cut { CanBeCut input.now.graph.now input.now.cut.now }
    requires plan { IsInRange input.now.plan }
    requires few { input.now.plan.machines < 65535 }
    requires failures { AreJobFailures input.now.plan.machines input.now.failures.now }
    requires places { length input.now.failures.now ≤ 65536 }

    // What the run is, by the owners that the placement gives.
    ensures run { IfOk result (λ run. (owner : ℕ → ℕ) →
        IsPlacement input.now.graph.now input.now.cut.now input.now.plan.machines owner →
        IsUnstoredRun
        (owned_shared input.now.graph.now (P.meaning program) owner input.now.failures.now)
        input.now.plan.machines input.now.plan.budget run) }

    // It is a run of machines of this engine, with the plan's pipeline, that take no snapshots.
    ensures engine { IfOk result (λ run.
        IsRunBy input.now.graph.now input.now.cut.now (P.meaning program) (record {
          run = input.now.plan;
          engine = input.now.engine;
          window = None;
        }) input.now.failures.now (lists_of run)) }

    // Its budget is not spent, where each attempt has as many tickets as it may need.
    ensures enough { IfOk result (λ run. (bound : ℕ) →
        BoundsSteps input.now.graph.now (P.meaning program) bound →
        (1 + length input.now.failures.now) * bound ≤ input.now.plan.budget → (left : Vertex) →
        run.end ≡ ending.Spent left → ⊥) }

    // The graph is placed for it, in the one way that there is.
    ensures placed { IfOk result (λ run. (owner : ℕ → ℕ) ×
        IsPlacement input.now.graph.now input.now.cut.now input.now.plan.machines owner) }
    ensures numbers { IfOk result (λ run. length run.numbers.items ≡ size input.now.graph.now) }
    ensures entries { IfOk result (λ run. All (IsEntryOf input.now.graph.now) run.order.items) }
{
    let plan = MachinePlan {
        run: input.plan,
        engine: input.engine,
        window: None,
    };
    let call = begin(alloc, input.graph, program, input.cut, plan, input.failures)?;
    let ended = play_unstored(rt, alloc, input.graph, program, call)?;
    let (call, end) = ended;
    match gathered(alloc, input.graph, input.failures, call, end, 0) {
        Ok(run) => Ok(run),
        Err(why) => Err(only_memory(why)),
    }
}

/// The call as it starts.
fn begin<P: Program>(
    alloc: Global,
    graph: &Graph,
    program: P,
    cut: &Cut,
    plan: MachinePlan,
    failures: &[FailureAt],
) -> Result<StoredCall<P>, NoMemory>
    requires cut { CanBeCut graph.now cut.now }
    requires plan { IsInRange plan.run }
    requires few { plan.run.machines < 65535 }
    requires failures { AreJobFailures plan.run.machines failures.now }
    requires window { plan.window ≡ None }
    ensures can { IfOk result (CanGoOnUnstored graph.now) }
    ensures begun { IfOk result (λ call. (header : Header) (st : Setting) →
        IsHeaderOf graph.now header → header.machines ≡ plan.run.machines →
        IsRunAt graph.now (P.meaning program) call.places st →
        HasBegunUnstored P.meaning call header plan.run.budget st) }
    ensures graph { IfOk result (λ call. IsDataGraph graph.now) }
    ensures places { IfOk result (λ call. ArePlacedFor graph.now cut.now plan call.places) }
    ensures failures { IfOk result (λ call. call.trace.failures ≡ failures.now) }
{
    let started = start_unstored(alloc, graph, program, cut, plan, failures)?;
    Ok(call_of(alloc, started, false))
}

/// Want of memory, which is the only reason.
fn only_memory(why: JournalFault) -> NoMemory
    requires { why ≡ fault.NoMemory }
{
    match why {
        JournalFault::NoMemory => NoMemory,
        _ => unreachable!(),
    }
}
