//! The part of the graph that each machine holds.
ghost use Rattle.std.specs.Prelude.{◌≡◌, ◌^◌, ◌<◌, length, slice_index, All, IfOk};
ghost use Rattle.graph_core.specs.DataGraph.{size};
ghost use Rattle.placement.specs.graphs.Placed.{AreUnsetParts, IsOwnedBy, Setting, atom_numbers, placed_owner};
ghost use Rattle.placement.specs.graphs.Inner.Making.{AreAllMade, AreAllOfGraph};

use crate::graphs::owners::vertex_owners;
use gl_base::{AtomNo, Lines, MachineNo, NoMemory, Vertex};
use graph_atoms::atom_cut::vertices_of;
use graph_core::Graph;
use local_graph::{LocalGraph, MachineLines};
use std::alloc::Global;

/// The part of each of so many machines, where `of` says in which atom each vertex is, and `owner`
/// on which machine each atom. Each machine's order of vertices begins at `first`, where it owns
/// that. The time is linear in vertices, edges, atoms and machines.
pub fn placed(
    alloc: Global,
    graph: &Graph,
    of: &[AtomNo],
    owner: &[MachineNo],
    machines: u16,
    first: Vertex,
) -> Result<Vec<LocalGraph>, NoMemory>
    requires each { length of.now ≡ size graph.now }
    requires atoms { All (λ a. a.0 < length owner.now) of.now }
    requires machines { All (λ m. m.0 < machines) owner.now }
    ensures { (st : Setting) → IsOwnedBy graph.now machines (placed_owner of.now owner.now) st →
        IfOk result (λ locals. AreUnsetParts st locals.items) }
{
    let owners = vertex_owners(alloc, of, owner, machines)?;
    parts_by_owner(alloc, graph, &owners, machines, first)
}

/// The part of each of so many machines, where `owners` has for each vertex the atom with the
/// number of its machine.
pub fn parts_by_owner(
    alloc: Global,
    graph: &Graph,
    owners: &[AtomNo],
    machines: u16,
    first: Vertex,
) -> Result<Vec<LocalGraph>, NoMemory>
    requires each { length owners.now ≡ size graph.now }
    requires below { All (λ a. a.0 < machines) owners.now }
    ensures { (st : Setting) →
        IsOwnedBy graph.now machines (slice_index (atom_numbers owners.now)) st →
        IfOk result (λ locals. AreUnsetParts st locals.items) }
{
    let lines = vertices_of(alloc, graph, owners, machines)?;
    make_all(alloc, graph, lines, machines, first)
}

/// Makes the part of each machine from its lines, in turn, and drops these.
fn make_all(
    alloc: Global,
    graph: &Graph,
    all: Vec<Lines>,
    machines: u16,
    first: Vertex,
) -> Result<Vec<LocalGraph>, NoMemory>
    requires few { length all.items < 2 ^ 16 }
    requires lines { AreAllOfGraph graph.now all.items }
    ensures count { IfOk result (λ locals. length locals.items ≡ length all.items) }
    ensures made { IfOk result (λ locals. AreAllMade graph.now machines all.items locals.items) }
{
    let mut locals = Vec::with_capacity(alloc, all.len())?;
    for lines in all {
        let me = MachineNo(locals.len() as u16);
        let held = MachineLines {
            me,
            own: &lines.vertices,
            ghosts: &lines.ghosts,
        };
        locals.push(LocalGraph::of(alloc, graph, &held, machines, first)?)?;
    }
    Ok(locals)
}
