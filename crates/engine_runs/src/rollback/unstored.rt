//! All machines of a call without a store go back to the start.
ghost use Rattle.std.specs.Prelude.{◌≡◌, ◌+◌, ◌<◌, ◌^◌, ℕ, List, [], None, false, length, option_map, IfOk, IfSome, OnOk};
ghost use Rattle.cluster_laws.specs.cluster_model.Clusters.{BaseView, Cluster};
ghost use Rattle.coordinator.specs.coord_core.Stores.{store_view};
ghost use Rattle.engine_runs.specs.rollback.Returning.{ArePlacesOf, CallOpening, RestartsFrom, HasFailures, HasReachedSome, Header, IsBaseBehind, IsBaseFor, IsAnyMachineOf, IsKnownTrace, IsRunAt, Setting, StartsSaving};
ghost use Rattle.engine_runs.specs.unstored.Inner.Going.{AreRestartsAlone};
ghost use Rattle.gl_base.specs.declared.entries.Entry.{Entry};
ghost use Rattle.graph_core.specs.DataGraph.{IsDataGraph};
ghost use Rattle.recovery.specs.Orders.{Shared};
ghost use Rattle.recovery.specs.Recovered.{IsHeaderOf};

use crate::placed::PlacedProgram;
use crate::rollback::failing::fail_reached;
use crate::rollback::next_attempts::{NextAttempt, ReturnPoint, attempt_from};
use crate::rollback::reading::failures_now;
use cluster_step::trace::Trace;
use gl_base::{Base, Entry, NoMemory};
use graph_core::Graph;
use placed_machines::any_machine::AnyMachine;
use recovery::restarts::{Restarts, base_behind, missing_restarts};
use recovery::start_base;
use std::alloc::Global;
use update_api::Program;

/// All machines go back after failures: each that has reached the count of a failure fails, and the
/// next attempt begins from the start, with the restarts of the attempt before and one for each
/// failure. What that takes away goes behind `lost`, and `restarts` has the restarts of the order
/// that the next attempt begins with. That order is the answer, and has nothing but restarts.
pub(crate) fn go_back_to_start<P: Program>(
    alloc: Global,
    trace: &mut Trace<AnyMachine<P>>,
    placed: &PlacedProgram<'_, P>,
    restarts: &mut Restarts,
    lost: &mut Vec<Entry>,
) -> Result<Vec<Entry>, NoMemory>
    requires places { ArePlacesOf placed.now.graph.now
        (length trace.old.now.machines.items) placed.now.places.now }
    requires window { placed.now.places.now.run.window ≡ None }
    requires graph { IsDataGraph placed.now.graph.now }
    requires stored { restarts.old.stored.items ≡ [] }
    // In each setting of a run in which a machine has reached the count of a failure the run goes
    // on.
    ensures back { trace.old.now.stopped ≡ false →
        (header : Header) (order : List Entry) (st : Setting) (o : CallOpening) →
        IsHeaderOf placed.now.graph.now header →
        IsRunAt placed.now.graph.now (P.meaning placed.now.program) placed.now.places.now st →
        (known : IsKnownTrace (IsAnyMachineOf P.meaning) trace.old header [] [] lost.old.items
        restarts.old.stored.items restarts.old.front.items order st o) →
        HasReachedSome trace.old st known.was.cluster →
        IfOk result (λ order.
        IsKnownTrace (IsAnyMachineOf P.meaning) trace.new header [] [] lost.new.items
        restarts.new.stored.items restarts.new.front.items order.items st o) }
    ensures alone { IfOk result (λ order. AreRestartsAlone order.items) }
    ensures runs { OnOk result (trace.new.now.stopped ≡ false) }
    ensures call { (trace.new.start ≡ trace.old.start) ×
        (trace.new.failures ≡ trace.old.failures) ×
        (length trace.new.now.machines.items ≡ length trace.old.now.machines.items) }
    ensures stored { restarts.new.stored ≡ restarts.old.stored }
{
    fail_reached(trace)?;
    let next = attempt_at_start(alloc, trace, placed, restarts, lost)?;
    if let Err(NoMemory) = trace.recover(
        alloc,
        next.machines,
        placed.places.run.engine,
        next.store,
    ) {
        drop(next.order);
        drop(next.front);
        drop(next.lost);
        return Err(NoMemory);
    }
    restarts.front = next.front;
    *lost = next.lost;
    Ok(next.order)
}

/// The next attempt, from the start.
fn attempt_at_start<P: Program>(
    alloc: Global,
    trace: &Trace<AnyMachine<P>>,
    placed: &PlacedProgram<'_, P>,
    restarts: &Restarts,
    lost: &[Entry],
) -> Result<NextAttempt<P>, NoMemory>
    requires places { ArePlacesOf placed.now.graph.now
        (length trace.now.now.machines.items) placed.now.places.now }
    requires window { placed.now.places.now.run.window ≡ None }
    requires graph { IsDataGraph placed.now.graph.now }
    requires stored { restarts.now.stored.items ≡ [] }
    ensures start { IfOk result (λ next. (st : Setting) × (base : BaseView) × (before : Cluster) ×
        StartsSaving (IsAnyMachineOf P.meaning) next.machines.items placed.now.places.now.run.engine
        (option_map store_view next.store) trace.now.now.next trace.now.now.left st base before) }
    ensures many { IfOk result (λ next.
        length next.machines.items ≡ length trace.now.now.machines.items) }
    ensures newest { IfOk result (λ next. IfSome next.store (λ s. s.newest + 1 < 2 ^ 32)) }
    ensures short { IfOk result (λ next. IfSome next.store (λ s. s.length < 2 ^ 32)) }
    ensures alone { IfOk result (λ next. AreRestartsAlone next.order.items) }
    ensures back { (header : Header) (order : List Entry) (st : Setting) (o : CallOpening) →
        IsHeaderOf placed.now.graph.now header →
        IsRunAt placed.now.graph.now (P.meaning placed.now.program) placed.now.places.now st →
        (known : IsKnownTrace (IsAnyMachineOf P.meaning) trace.now header [] [] lost.now
        restarts.now.stored.items restarts.now.front.items order st o) →
        HasFailures trace.now st known.was.cluster →
        IfOk result (λ next.
        RestartsFrom P.meaning trace.now next.machines.items placed.now.places.now.run.engine
        (option_map store_view next.store) next.order.items lost.now next.lost.items
        restarts.now.front.items next.front.items st o known.was.events known.was.cluster) }
{
    let failures = failures_now(alloc, trace)?;
    let missing = missing_restarts(
        alloc,
        &restarts.stored,
        &restarts.front,
        failures,
        trace.next(),
    )?;
    let Ok(base) = start_with(alloc, placed.graph, &placed.program, &missing) else {
        drop(missing);
        return Err(NoMemory);
    };
    let back = ReturnPoint {
        base,
        missing,
        store: None,
    };
    let Ok(next) = attempt_from(alloc, trace, placed, restarts, lost, back) else {
        return Err(NoMemory);
    };
    Ok(next)
}

/// The start, with these entries as its order.
fn start_with<P: Program>(
    alloc: Global,
    graph: &Graph,
    program: &P,
    missing: &[Entry],
) -> Result<Base, NoMemory>
    ensures numbers { IfOk result (IsBaseFor graph.now) }
    ensures number { IfOk result (λ base. base.number ≡ 0) }
    ensures order { IfOk result (λ base. base.order.items ≡ missing.now) }
    ensures base { (header : Header) (shared : Shared) → shared.graph ≡ graph.now →
        shared.program ≡ P.meaning program.now → IsHeaderOf graph.now header →
        IfOk result (IsBaseBehind shared header [] missing.now) }
{
    let base = start_base(alloc, graph, program)?;
    let base = base_behind(base, missing)?;
    Ok(base)
}
