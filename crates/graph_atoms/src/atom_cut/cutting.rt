//! A graph cut into atoms.
ghost use Rattle.std.specs.Prelude.{◌≡◌, ◌<◌, ◌≤◌, length, All, IfOk};
ghost use Rattle.graph_core.specs.DataGraph.{size};
ghost use Rattle.graph_atoms.specs.atom_cut.Cuts.{atom_numbers, IsGrowthCut};
ghost use Rattle.graph_atoms.specs.atom_cut.Atoms.{AreAtoms};
ghost use Rattle.graph_atoms.specs.atom_cut.Index.{index_bytes};

use crate::atom_cut::assigning::atoms_by_growth;
use crate::atom_cut::index::index_of;
use crate::atom_cut::lines::lines_of;
use crate::atom_cut::metas::metas_of;
use gl_base::{AtomNo, Lines, MAX_ATOMS, NoMemory};
use graph_core::Graph;
use std::alloc::Global;

/// The atom of each vertex, the lines of each atom, and the bytes of the index.
#[derive(Drop)]
pub struct Atoms {
    pub of: Vec<AtomNo>,
    pub lines: Vec<Lines>,
    pub index: Vec<u8>,
}

/// Cuts a graph into so many atoms. The vertex at place p of n in growth order, from the least
/// vertex on, is in the atom p * atoms / n, rounded down.
pub fn cut(alloc: Global, graph: &Graph, atoms: u16) -> Result<Atoms, NoMemory>
    requires some { 1 ≤ atoms }
    requires few { atoms ≤ MAX_ATOMS }
    ensures cut { IfOk result (λ made. IsGrowthCut graph.now atoms (atom_numbers made.of.items)) }
    ensures below { IfOk result (λ made. All (λ a. a.0 < atoms) made.of.items) }
    ensures lines { IfOk result (λ made.
        AreAtoms graph.now (atom_numbers made.of.items) atoms made.lines.items) }
    ensures index { IfOk result (λ made.
        made.index.items ≡ index_bytes graph.now (atom_numbers made.of.items) atoms) }
{
    let of = atoms_by_growth(alloc, graph, atoms)?;
    let lines = lines_of(alloc, graph, &of, atoms)?;
    let index = index_under(alloc, graph, &of, &lines, atoms)?;
    Ok(Atoms { of, lines, index })
}

/// The bytes of the index of a cut into so many atoms, where `of` says in which atom each vertex
/// is, and `lines` are theirs.
pub fn index_under(
    alloc: Global,
    graph: &Graph,
    of: &[AtomNo],
    lines: &[Lines],
    atoms: u16,
) -> Result<Vec<u8>, NoMemory>
    requires few { atoms ≤ MAX_ATOMS }
    requires each { length of.now ≡ size graph.now }
    requires below { All (λ a. a.0 < atoms) of.now }
    requires lines { AreAtoms graph.now (atom_numbers of.now) atoms lines.now }
    ensures { IfOk result (λ index.
        index.items ≡ index_bytes graph.now (atom_numbers of.now) atoms) }
{
    let metas = metas_of(alloc, graph, of, atoms)?;
    index_of(alloc, graph, atoms, lines, &metas)
}
