//! All machines of an attempt.
ghost use Rattle.std.specs.Prelude.{◌≡◌, ℕ, List, Some, length, IfOk};
ghost use Rattle.graph_core.specs.DataGraph.{IsDataGraph};
ghost use Rattle.placed_machines.specs.Beginning.{ArePlacesOf, AreAnyMachinesOf, BaseView, Cluster, HaveAdmitted, IsBaseFor, IsBaseOf, IsOwnedBy, IsRunAt, Setting, placed_owner};
ghost use Rattle.placed_machines.specs.Inner.Making.{AreUnsetParts, GoesBy, IsRunFrom, Update, takes_locks, with_locking};

use crate::any_machine::AnyMachine;
use crate::machines::{MemberTerms, new_members};
use coordinator::coord_core::Engine;
use gl_base::{AtomNo, Base, MachineNo, NoMemory, Vertex};
use graph_core::Graph;
use local_graph::LocalGraph;
use machine_core::machine_parts::Terms;
use placement::graphs::placed;
use placement::places::NewTerms;
use std::alloc::Global;
use update_api::Program;

/// How an attempt that takes snapshots runs: on so many machines, of which each has so many scopes
/// in flight at most, with its vertices in an order that begins at `first`, where it owns that; at
/// most `window` updates of one machine are outside the last snapshot that was acknowledged, where
/// snapshots are taken; and so updates are kept apart.
#[derive(Clone, Copy)]
pub struct SavingRun {
    pub machines: u16,
    pub pipeline: u16,
    pub first: Vertex,
    pub window: Option<u32>,
    pub engine: Engine,
}

/// Where the vertices of a graph are, and how each attempt runs: the atom of each vertex, the
/// machine of each atom, and, where vertices run by colours, the colour of each.
#[derive(Drop)]
pub struct Places {
    pub of: Vec<AtomNo>,
    pub owner: Vec<MachineNo>,
    pub colours: Vec<u32>,
    pub run: SavingRun,
}

/// The machines of an attempt that begins from this base, each at its place, of the engine that the
/// places say; and machine a admits its first scope with the serial `serials[a]`.
pub fn machines_of_attempt<P: Program>(
    alloc: Global,
    graph: &Graph,
    program: P,
    base: &Base,
    places: &Places,
    serials: &[u64],
) -> Result<Vec<AnyMachine<P>>, NoMemory>
    requires places { ArePlacesOf graph.now places.now.run.machines places.now }
    requires base { IsBaseFor graph.now base.now }
    requires serials { length serials.now ≡ places.now.run.machines }
    ensures stand { (st : Setting) (view : BaseView) (before : Cluster) →
        IsRunAt graph.now (P.meaning program) places.now st → IsBaseOf st base.now view →
        HaveAdmitted st serials.now before →
        IfOk result (λ placed. AreAnyMachinesOf P.meaning st view before placed.items) }
    ensures many { IfOk result (λ placed. length placed.items ≡ places.now.run.machines) }
{
    let terms = terms_of(graph, base, places.run);
    let parts = parts_of(alloc, graph, places)?;
    let by = MemberTerms {
        base,
        places,
        terms,
    };
    new_members(alloc, parts, program, &by, serials)
}

/// The part of each machine, of a graph that is placed so.
fn parts_of(alloc: Global, graph: &Graph, places: &Places) -> Result<Vec<LocalGraph>, NoMemory>
    requires { ArePlacesOf graph.now places.now.run.machines places.now }
    ensures { (st : Setting) →
        IsOwnedBy graph.now places.now.run.machines
        (placed_owner places.now.of.items places.now.owner.items) st →
        IfOk result (λ parts. AreUnsetParts st parts.items) }
{
    let run = places.run;
    placed(
        alloc,
        graph,
        &places.of,
        &places.owner,
        run.machines,
        run.first,
    )
}

/// What the machines of such an attempt go by.
fn terms_of(graph: &Graph, base: &Base, run: SavingRun) -> NewTerms
    ensures goes { (st : Setting) (program : Update) (owner : ℕ → ℕ) (colours : List ℕ) →
        IsRunFrom graph.now program owner colours run base.now st →
        GoesBy (with_locking st) run.window result }
    ensures locks { result.terms.locks ≡ takes_locks run.engine }
    ensures graph { IsDataGraph graph.now }
{
    NewTerms {
        terms: Terms {
            pipeline: run.pipeline,
            base: base.number,
            locks: matches!(run.engine, Engine::Locking),
        },
        machines: run.machines,
        vertices: graph.n(),
        serial: 0,
    }
}
