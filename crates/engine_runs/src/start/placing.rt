//! Where a call places its graph.
ghost use Rattle.std.specs.Prelude.{IfOk};
ghost use Rattle.engine_runs.specs.start.Starting.{ArePlacedFor, CanBeCut, IsBaseFor, IsInRange};
ghost use Rattle.engine_runs.specs.start.Inner.Openings.{KeepsApart};
ghost use Rattle.graph_core.specs.DataGraph.{IsDataGraph};

use crate::answers::MachinePlan;
use cluster_step::trace::Engine;
use gl_base::{Base, EngineKind, NoMemory};
use graph_atoms::atom_gather::Cut;
use graph_core::Graph;
use graph_core::color_steps::{greatest_colour, greedy_colouring};
use placed_machines::{Places, SavingRun};
use placement::plans::{first_of, placement_of};
use std::alloc::Global;

/// How many scopes of a machine may be in flight where vertices run by colours: more than a machine
/// takes up in one turn. A scope is in flight there only while its own update is made, or as long
/// as its update has to wait for another attempt or a ticket.
const WIDE_PIPELINE: u16 = 256;

/// The places that the plan gives the graph, which is cut so. A machine's order of vertices begins
/// at the vertex that has the least number of the base, where the machine owns that. Where the
/// plan's engine is chromatic, the graph is coloured.
pub(crate) fn places_of(
    alloc: Global,
    graph: &Graph,
    base: &Base,
    cut: &Cut,
    plan: MachinePlan,
) -> Result<Places, NoMemory>
    requires cut { CanBeCut graph.now cut.now }
    requires plan { IsInRange plan.run }
    requires base { IsBaseFor graph.now base.now }
    ensures placed { IfOk result (ArePlacedFor graph.now cut.now plan) }
    ensures graph { IsDataGraph graph.now }
{
    let first = first_of(graph, base);
    let placed = placement_of(alloc, graph, cut, plan.run)?;
    let (engine, pipeline, colours) = kept_apart(alloc, graph, plan)?;
    let run = SavingRun {
        machines: plan.run.machines,
        pipeline,
        first,
        window: plan.window,
        engine,
    };
    Ok(Places {
        of: placed.of,
        owner: placed.owner,
        colours,
        run,
    })
}

/// How updates on the graph are kept apart, how many scopes of a machine may be in flight, and the
/// colour of each vertex where they run by colours.
fn kept_apart(
    alloc: Global,
    graph: &Graph,
    plan: MachinePlan,
) -> Result<(Engine, u16, Vec<u32>), NoMemory>
    ensures { IfOk result (λ made. KeepsApart graph.now plan made.0 made.1 made.2.items) }
{
    match plan.engine {
        EngineKind::Locking => Ok((Engine::Locking, plan.run.pipeline, Vec::new(alloc))),
        EngineKind::Chromatic => {
            let colours = greedy_colouring(alloc, graph)?;
            let engine = Engine::Chromatic(greatest_colour(&colours));
            Ok((engine, WIDE_PIPELINE, colours))
        }
    }
}
