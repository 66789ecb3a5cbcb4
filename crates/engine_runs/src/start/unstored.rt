//! A call starts without a store.
ghost use Rattle.std.specs.Prelude.{[], false, length, ◌<◌, ◌≡◌, IfOk};
ghost use Rattle.engine_runs.specs.start.Starting.{AreJobFailures, ArePlacedFor, CanBeCut, HasStarted, IsBaseFor, IsHeaderOf, IsInRange, IsRunAt, Setting};
ghost use Rattle.graph_core.specs.DataGraph.{IsDataGraph};
ghost use Rattle.recovery.specs.Recovered.{IsStartBase};
ghost use Rattle.store.specs.declared.store_format.header.Header.{Header};

use crate::answers::MachinePlan;
use crate::placed::PlacedProgram;
use crate::start::openings::Opening;
use crate::start::placing::places_of;
use crate::start::starting::Started;
use crate::start::traces::trace_of;
use gl_base::{FailureAt, NoMemory};
use graph_atoms::atom_gather::Cut;
use graph_core::Graph;
use recovery::restarts::Restarts;
use recovery::start_base;
use std::alloc::Global;
use update_api::Program;

/// Starts a call from the start, without a store: places the graph, which is cut so, as the plan
/// says, makes the machines, of the engine that the plan asks for, and opens the course with the
/// ticket 0, and with as many tickets as the budget has.
pub(crate) fn start_unstored<P: Program>(
    alloc: Global,
    graph: &Graph,
    program: P,
    cut: &Cut,
    plan: MachinePlan,
    failures: &[FailureAt],
) -> Result<Started<P>, NoMemory>
    requires cut { CanBeCut graph.now cut.now }
    requires plan { IsInRange plan.run }
    requires few { plan.run.machines < 65535 }
    requires failures { AreJobFailures plan.run.machines failures.now }
    // It has started as from a store for these machines and this graph that has no snapshot.
    ensures started { IfOk result (λ started. (header : Header) (st : Setting) →
        IsHeaderOf graph.now header → header.machines ≡ plan.run.machines →
        IsRunAt graph.now (P.meaning program) started.places st →
        HasStarted P.meaning started header [] false plan.run.budget st) }
    ensures graph { IfOk result (λ started. IsDataGraph graph.now) }
    ensures places { IfOk result (λ started. ArePlacedFor graph.now cut.now plan started.places) }
    ensures failures { IfOk result (λ started. started.trace.failures ≡ failures.now) }
    ensures machines { IfOk result (λ started.
        length started.trace.now.machines.items ≡ plan.run.machines) }
    ensures runs { IfOk result (λ started. started.trace.now.stopped ≡ false) }
    ensures stored { IfOk result (λ started. started.restarts.stored.items ≡ []) }
    ensures order { IfOk result (λ started. started.order.items ≡ []) }
{
    let opening = opening_at_start(alloc, graph, &program)?;
    let Ok(places) = places_of(alloc, graph, &opening.base, cut, plan) else {
        drop(opening);
        return Err(NoMemory);
    };
    let placed = PlacedProgram {
        graph,
        program,
        places: &places,
    };
    let Ok(trace) = trace_of(alloc, &placed, &opening, plan.run.budget, failures) else {
        drop(places);
        drop(opening);
        return Err(NoMemory);
    };
    let Opening { base, restarts, .. } = opening;
    Ok(Started {
        trace,
        places,
        order: base.order,
        restarts,
    })
}

/// What a call begins with at the start: the numbers with which the program begins, the ticket 0,
/// and no restarts.
fn opening_at_start<P: Program>(
    alloc: Global,
    graph: &Graph,
    program: &P,
) -> Result<Opening, NoMemory>
    ensures base { IfOk result (λ opening.
        IsStartBase graph.now (P.meaning program.now) opening.base) }
    ensures fits { IfOk result (λ opening. IsBaseFor graph.now opening.base) }
    ensures next { IfOk result (λ opening. opening.next ≡ 0) }
    ensures stored { IfOk result (λ opening. opening.restarts.stored.items ≡ []) }
    ensures front { IfOk result (λ opening. opening.restarts.front.items ≡ []) }
{
    let base = start_base(alloc, graph, program)?;
    Ok(Opening {
        base,
        next: 0,
        restarts: Restarts {
            stored: Vec::new(alloc),
            front: Vec::new(alloc),
        },
    })
}
