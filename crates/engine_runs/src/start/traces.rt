//! The course of a call that starts.
ghost use Rattle.std.specs.Prelude.{◌≡◌, ◌+◌, ◌^◌, ◌<◌, [], Bool, false, length, IfOk};
ghost use Rattle.std.specs.declared.vec.Vec.{Vec};
ghost use Rattle.std.specs.declared.alloc.Global.{Global};
ghost use Rattle.engine_runs.specs.start.Starting.{ArePlacesOf, Base, IsBaseFor, IsRunAt, Setting};
ghost use Rattle.engine_runs.specs.start.Inner.Openings.{CanOpenWith, IsStoreOf, OpensWith, base_with};
ghost use Rattle.gl_base.specs.declared.entries.Entry.{Entry};
ghost use Rattle.graph_core.specs.DataGraph.{IsDataGraph};

use crate::attempt_machines::store_where;
use crate::placed::PlacedProgram;
use crate::start::openings::Opening;
use crate::start::tickets::tickets_from;
use cluster_step::clusters::SnapCluster;
use cluster_step::trace::{Store, Trace};
use gl_base::{Base, FailureAt, NoMemory};
use graph_core::Graph;
use placed_machines::any_machine::AnyMachine;
use placed_machines::machines_of_attempt;
use std::alloc::Global;
use update_api::Program;

/// The course of a call on machines at these places that begins with this, with so many tickets and
/// failures. Without a window its coordinator has no store.
pub(crate) fn trace_of<P: Program>(
    alloc: Global,
    placed: &PlacedProgram<'_, P>,
    opening: &Opening,
    budget: u64,
    failures: &[FailureAt],
) -> Result<Trace<AnyMachine<P>>, NoMemory>
    requires places { ArePlacesOf placed.now.graph.now
        placed.now.places.now.run.machines placed.now.places.now }
    requires few { placed.now.places.now.run.machines < 65535 }
    requires base { IsBaseFor placed.now.graph.now opening.now.base }
    requires number { opening.now.base.number + 1 < 2 ^ 32 }
    requires short { opening.now.base.length < 2 ^ 32 }
    ensures failures { IfOk result (λ trace. trace.failures ≡ failures.now) }
    ensures machines { IfOk result (λ trace.
        length trace.now.machines.items ≡ placed.now.places.now.run.machines) }
    ensures runs { IfOk result (λ trace. trace.now.stopped ≡ false) }
    ensures opened { IfOk result (λ trace.
        (st : Setting) (resumed : Bool) (kept : Vec Entry Global) →
        IsRunAt placed.now.graph.now (P.meaning placed.now.program) placed.now.places.now st →
        CanOpenWith st failures.now resumed (base_with kept opening.now.base) opening.now.next
        budget → OpensWith P.meaning trace st resumed (base_with kept opening.now.base) budget) }
{
    let listed = Vec::from_slice(alloc, failures)?;
    let serials = Vec::from_elem(alloc, 0u64, placed.places.run.machines as usize)?;
    let machines = machines_of_attempt(
        alloc,
        placed.graph,
        placed.program,
        &opening.base,
        placed.places,
        &serials,
    )?;
    let store = store_of(placed.graph, &opening.base);
    let left = tickets_from(opening.next, budget);
    let cluster = SnapCluster::new(
        alloc,
        machines,
        placed.places.run.engine,
        store_where(placed.places.run.window, store),
        opening.next,
        left,
    )?;
    let trace = Trace::open(alloc, cluster, listed)?;
    Ok(trace)
}

/// What the coordinator knows of the store of this base.
fn store_of(graph: &Graph, base: &Base) -> Store
    ensures store { IsStoreOf graph.now base.now result }
    ensures graph { IsDataGraph graph.now }
{
    Store {
        vertices: graph.n(),
        edges: graph.m(),
        newest: base.number,
        length: base.length,
    }
}
