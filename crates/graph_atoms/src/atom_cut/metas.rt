//! Meta-edges: the pairs of atoms with an edge between them.
ghost use Rattle.std.specs.Prelude.{◌≡◌, ℕ, ◌+◌, ◌-◌, ◌*◌, ◌^◌, ◌<◌, ◌≤◌, ◌++◌, if◌then◌else◌, length, slice_index, All, IfOk, OnOk};
ghost use Rattle.graph_core.specs.DataGraph.{IsDataGraph, size};
ghost use Rattle.graph_atoms.specs.atom_cut.Cuts.{atom_numbers};
ghost use Rattle.graph_atoms.specs.atom_cut.MetaEdges.{are_both, meta_edge, meta_edges, metas_among, metas_behind};
ghost use Rattle.graph_atoms.specs.atom_cut.Inner.Counting.{AreEdgeCounts, count_in, pair_place};

use gl_base::{AtomNo, EdgeNo, MAX_ATOMS, NoMemory};
use graph_core::Graph;
use std::alloc::Global;

/// Two atoms, the lower one first, and how many edges are between them.
#[derive(Clone, Copy)]
pub struct MetaEdge {
    pub a: AtomNo,
    pub b: AtomNo,
    pub count: u32,
}

/// All meta-edges of so many atoms, ascending.
pub fn metas_of(
    alloc: Global,
    graph: &Graph,
    of: &[AtomNo],
    atoms: u16,
) -> Result<Vec<MetaEdge>, NoMemory>
    requires few { atoms ≤ MAX_ATOMS }
    requires each { length of.now ≡ size graph.now }
    requires below { All (λ a. a.0 < atoms) of.now }
    ensures graph { OnOk result (IsDataGraph graph.now) }
    ensures metas { IfOk result (λ metas.
        metas.items ≡ meta_edges graph.now (atom_numbers of.now) atoms) }
{
    let counts = counts_of(alloc, graph, of, atoms)?;
    list_metas(alloc, atoms, &counts)
}

/// How many edges are between each two atoms.
fn counts_of(alloc: Global, graph: &Graph, of: &[AtomNo], atoms: u16) -> Result<Vec<u32>, NoMemory>
    requires few { atoms ≤ MAX_ATOMS }
    requires each { length of.now ≡ size graph.now }
    requires below { All (λ a. a.0 < atoms) of.now }
    ensures graph { OnOk result (IsDataGraph graph.now) }
    ensures counts { IfOk result (λ counts.
        AreEdgeCounts graph.now (atom_numbers of.now) atoms (length graph.now.edges) counts.items) }
{
    let mut counts = vec![in alloc; 0u32; atoms as usize * atoms as usize]?;
    count_edges(graph, of, atoms, &mut counts);
    Ok(counts)
}

/// Counts the edges between each two atoms.
fn count_edges(graph: &Graph, of: &[AtomNo], atoms: u16, counts: &mut [u32])
    requires few { atoms ≤ MAX_ATOMS }
    requires each { length of.now ≡ size graph.now }
    requires below { All (λ a. a.0 < atoms) of.now }
    requires none { AreEdgeCounts graph.now (atom_numbers of.now) atoms 0 counts.old }
    ensures graph { IsDataGraph graph.now }
    ensures counts { AreEdgeCounts graph.now (atom_numbers of.now) atoms
        (length graph.now.edges) counts.new }
{
    for e in 0..graph.m() {
        let line = graph.edge(EdgeNo(e));
        let from = of[line.from.0 as usize];
        count_edge(from, of[line.to.0 as usize], atoms, counts);
    }
}

/// Counts an edge from an atom to another.
fn count_edge(from: AtomNo, to: AtomNo, atoms: u16, counts: &mut [u32])
    requires few { atoms ≤ MAX_ATOMS }
    requires from { from.0 < atoms }
    requires to { to.0 < atoms }
    requires room { length counts.old ≡ atoms * atoms }
    requires free { (i : ℕ) → slice_index counts.old i + 1 < 2 ^ 32 }
    ensures each { (a b : ℕ) → a < b → b < atoms →
        count_in atoms counts.new a b ≡ count_in atoms counts.old a
        b + (if are_both a b from.0 to.0 then 1 else 0) }
    ensures few { (i : ℕ) → slice_index counts.new i ≤ slice_index counts.old i + 1 }
{
    if from == to {
        return;
    }
    counts[place_of(atoms, from, to)] += 1;
}

/// The place of a pair of atoms, the lower one first.
fn place_of(atoms: u16, from: AtomNo, to: AtomNo) -> usize
    requires few { atoms ≤ MAX_ATOMS }
    requires from { from.0 < atoms }
    requires to { to.0 < atoms }
    ensures place { result ≡ pair_place atoms from.0 to.0 }
    ensures inside { result < atoms * atoms }
{
    let low = from.0.min(to.0);
    let high = from.0.max(to.0);
    low as usize * atoms as usize + high as usize
}

/// The meta-edges of a table of counts.
fn list_metas(alloc: Global, atoms: u16, counts: &[u32]) -> Result<Vec<MetaEdge>, NoMemory>
    requires few { atoms ≤ MAX_ATOMS }
    requires room { length counts.now ≡ atoms * atoms }
    ensures { IfOk result (λ metas. metas.items ≡ metas_among (count_in atoms counts.now) atoms) }
{
    let mut metas = Vec::new(alloc);
    for a in 0..atoms {
        list_behind(a, atoms, counts, &mut metas)?;
    }
    Ok(metas)
}

/// Adds the meta-edges of an atom with those behind it.
fn list_behind(
    a: u16,
    atoms: u16,
    counts: &[u32],
    metas: &mut Vec<MetaEdge>,
) -> Result<(), NoMemory>
    requires few { atoms ≤ MAX_ATOMS }
    requires inside { a < atoms }
    requires room { length counts.now ≡ atoms * atoms }
    ensures { OnOk result
        (metas.new.items ≡ metas.old.items ++ metas_behind
        (count_in atoms counts.now) a (atoms - (a + 1))) }
{
    for b in a + 1..atoms {
        let place = a as usize * atoms as usize + b as usize;
        list_meta(AtomNo(a), AtomNo(b), counts[place], metas)?;
    }
    Ok(())
}

/// Adds the meta-edge of two atoms, where there is an edge between them.
fn list_meta(a: AtomNo, b: AtomNo, count: u32, metas: &mut Vec<MetaEdge>) -> Result<(), NoMemory>
    ensures { OnOk result (metas.new.items ≡ metas.old.items ++ meta_edge (λ _ _. count) a.0 b.0) }
{
    if count == 0 {
        return Ok(());
    }
    metas.push(MetaEdge { a, b, count })?;
    Ok(())
}
