//! A graph that is cut into atoms, and these placed on machines.
ghost use Rattle.std.specs.Prelude.{◌≡◌, ◌≤◌, ◌<◌, length, All, IfOk};
ghost use Rattle.graph_core.specs.DataGraph.{size};
ghost use Rattle.placement.specs.graphs.Placed.{AreUnsetParts, IsOwnedBy, Setting, atom_numbers, machine_numbers, placed_owner};
ghost use Rattle.placement.specs.graphs.Weights.{IsBalanced, IsGrowthCut, IsPlacing, atom_weights};

use crate::graphs::parts::placed;
use crate::graphs::weighing::weights_of;
use gl_base::{AtomNo, MachineNo, NoMemory, Vertex};
use graph_atoms::atom_cut::atoms_by_growth;
use graph_atoms::atom_place::place;
use graph_core::Graph;
use local_graph::LocalGraph;
use std::alloc::Global;

/// The atom of each vertex, and the machine of each atom.
#[derive(Drop)]
pub struct Placement {
    pub of: Vec<AtomNo>,
    pub owner: Vec<MachineNo>,
}

/// The atom of each vertex, the machine of each atom, and the part of the graph that each machine
/// holds.
#[derive(Drop)]
pub struct PlacedGraph {
    pub of: Vec<AtomNo>,
    pub owner: Vec<MachineNo>,
    pub parts: Vec<LocalGraph>,
}

/// Cuts a graph by its growth into so many atoms, and places these on so many machines by their
/// weights: each atom weighs as much as it has vertices and edges.
pub fn placement_by_cut(
    alloc: Global,
    graph: &Graph,
    atoms: u16,
    machines: u16,
) -> Result<Placement, NoMemory>
    requires some { 1 ≤ atoms }
    requires some_machine { 1 ≤ machines }
    ensures each { IfOk result (λ made. length made.of.items ≡ size graph.now) }
    ensures cut { IfOk result (λ made. IsGrowthCut graph.now atoms (atom_numbers made.of.items)) }
    ensures atoms { IfOk result (λ made. All (λ a. a.0 < atoms) made.of.items) }
    ensures count { IfOk result (λ made. length made.owner.items ≡ atoms) }
    ensures placing { IfOk result (λ made.
        IsPlacing (atom_weights graph.now (atom_numbers made.of.items) atoms) machines
        (machine_numbers made.owner.items)) }
    ensures balanced { IfOk result (λ made.
        IsBalanced (atom_weights graph.now (atom_numbers made.of.items) atoms) machines
        (machine_numbers made.owner.items)) }
    ensures machines { IfOk result (λ made. All (λ m. m.0 < machines) made.owner.items) }
{
    let of = atoms_by_growth(alloc, graph, atoms)?;
    let owner = owners_by_weight(alloc, graph, &of, atoms, machines)?;
    Ok(Placement { of, owner })
}

/// Cuts and places a graph as `placement_by_cut` does, and makes each machine's part. Its order of
/// vertices begins at `first`, where the machine owns that.
pub fn placed_by_cut(
    alloc: Global,
    graph: &Graph,
    atoms: u16,
    machines: u16,
    first: Vertex,
) -> Result<PlacedGraph, NoMemory>
    requires some { 1 ≤ atoms }
    requires some_machine { 1 ≤ machines }
    ensures cut { IfOk result (λ made. IsGrowthCut graph.now atoms (atom_numbers made.of.items)) }
    ensures atoms { IfOk result (λ made. All (λ a. a.0 < atoms) made.of.items) }
    ensures placing { IfOk result (λ made.
        IsPlacing (atom_weights graph.now (atom_numbers made.of.items) atoms) machines
        (machine_numbers made.owner.items)) }
    ensures balanced { IfOk result (λ made.
        IsBalanced (atom_weights graph.now (atom_numbers made.of.items) atoms) machines
        (machine_numbers made.owner.items)) }
    ensures machines { IfOk result (λ made. All (λ m. m.0 < machines) made.owner.items) }
    ensures parts { (st : Setting) →
        IfOk result (λ made.
        IsOwnedBy graph.now machines (placed_owner made.of.items made.owner.items) st →
        AreUnsetParts st made.parts.items) }
{
    let of = atoms_by_growth(alloc, graph, atoms)?;
    let owner = owners_by_weight(alloc, graph, &of, atoms, machines)?;
    let parts = placed(alloc, graph, &of, &owner, machines, first)?;
    Ok(PlacedGraph { of, owner, parts })
}

/// The machine of each of so many atoms, where `of` says in which atom each vertex is: they are
/// placed on so many machines by their weights.
pub fn owners_by_weight(
    alloc: Global,
    graph: &Graph,
    of: &[AtomNo],
    atoms: u16,
    machines: u16,
) -> Result<Vec<MachineNo>, NoMemory>
    requires some { 1 ≤ machines }
    requires each { length of.now ≡ size graph.now }
    requires below { All (λ a. a.0 < atoms) of.now }
    ensures count { IfOk result (λ owner. length owner.items ≡ atoms) }
    ensures placing { IfOk result (λ owner.
        IsPlacing (atom_weights graph.now (atom_numbers of.now) atoms) machines
        (machine_numbers owner.items)) }
    ensures balanced { IfOk result (λ owner.
        IsBalanced (atom_weights graph.now (atom_numbers of.now) atoms) machines
        (machine_numbers owner.items)) }
    ensures machines { IfOk result (λ owner. All (λ m. m.0 < machines) owner.items) }
{
    let weights = weights_of(alloc, graph, of, atoms)?;
    place(alloc, &weights, machines)
}
