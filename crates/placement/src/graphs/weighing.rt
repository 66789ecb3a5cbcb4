//! What atoms weigh.
ghost use Rattle.std.specs.Prelude.{◌≡◌, ℕ, ◌+◌, ◌^◌, ◌<◌, ◌==◌, ◌||◌, length, slice_index, sum, if◌then◌else◌, All, IfOk};
ghost use Rattle.graph_core.specs.DataGraph.{IsDataGraph, size};
ghost use Rattle.placement.specs.graphs.Placed.{atom_numbers};
ghost use Rattle.placement.specs.graphs.Weights.{atom_weights};
ghost use Rattle.placement.specs.graphs.Inner.Weighing.{AreWeights};

use gl_base::{AtomNo, EdgeNo, NoMemory};
use graph_core::Graph;
use std::alloc::Global;

/// How many vertices and edges each of so many atoms has, where `of` says in which atom each vertex
/// is.
pub fn weights_of(
    alloc: Global,
    graph: &Graph,
    of: &[AtomNo],
    atoms: u16,
) -> Result<Vec<u64>, NoMemory>
    requires each { length of.now ≡ size graph.now }
    requires below { All (λ a. a.0 < atoms) of.now }
    ensures weights { IfOk result (λ weights.
        weights.items ≡ atom_weights graph.now (atom_numbers of.now) atoms) }
    ensures fits { IfOk result (λ weights. sum weights.items < 2 ^ 64) }
{
    let mut weights = vec![in alloc; 0u64; atoms as usize]?;
    weigh(graph, of, &mut weights);
    Ok(weights)
}

/// Adds each vertex and each edge to the weights of the atoms that have it.
fn weigh(graph: &Graph, of: &[AtomNo], weights: &mut [u64])
    requires each { length of.now ≡ size graph.now }
    requires below { All (λ a. a.0 < length weights.old) of.now }
    requires none { AreWeights graph.now (atom_numbers of.now) 0 0 weights.old }
    ensures graph { IsDataGraph graph.now }
    ensures weights { AreWeights graph.now (atom_numbers of.now) (size graph.now)
        (length graph.now.edges) weights.new }
{
    weigh_vertices(graph, of, weights);
    weigh_edges(graph, of, weights);
}

/// Adds each vertex to the weight of its atom.
fn weigh_vertices(graph: &Graph, of: &[AtomNo], weights: &mut [u64])
    requires each { length of.now ≡ size graph.now }
    requires below { All (λ a. a.0 < length weights.old) of.now }
    requires none { AreWeights graph.now (atom_numbers of.now) 0 0 weights.old }
    ensures { AreWeights graph.now (atom_numbers of.now) (size graph.now) 0 weights.new }
{
    for v in 0..graph.n() {
        let atom = of[v as usize].0 as usize;
        weights[atom] += 1;
    }
}

/// Adds each edge to the weights of the atoms of its ends.
fn weigh_edges(graph: &Graph, of: &[AtomNo], weights: &mut [u64])
    requires each { length of.now ≡ size graph.now }
    requires below { All (λ a. a.0 < length weights.old) of.now }
    requires vertices { AreWeights graph.now (atom_numbers of.now) (size graph.now) 0 weights.old }
    ensures graph { IsDataGraph graph.now }
    ensures weights { AreWeights graph.now (atom_numbers of.now) (size graph.now)
        (length graph.now.edges) weights.new }
{
    for e in 0..graph.m() {
        let line = graph.edge(EdgeNo(e));
        let from = of[line.from.0 as usize];
        weigh_edge(from, of[line.to.0 as usize], weights);
    }
}

/// Adds an edge to the weights of these atoms, and once where they are one.
fn weigh_edge(from: AtomNo, to: AtomNo, weights: &mut [u64])
    requires from { from.0 < length weights.old }
    requires to { to.0 < length weights.old }
    requires few { (a : ℕ) → slice_index weights.old a + 1 < 2 ^ 64 }
    ensures each { (a : ℕ) →
        slice_index weights.new a ≡ slice_index weights.old a + (if from.0 == a || to.0 == a then 1
        else 0) }
{
    weights[from.0 as usize] += 1;
    if to != from {
        weights[to.0 as usize] += 1;
    }
}
