//! The lines of each atom.
ghost use Rattle.std.specs.Prelude.{◌≡◌, ℕ, ◌<◌, ◌==◌, ◌&&◌, ◌||◌, ◌∷◌, [], false, not, length, slice_index_or, All, IfOk, OnOk};
ghost use Rattle.std.specs.List.{list_any};
ghost use Rattle.gl_base.specs.declared.atoms.Lines.{Lines};
ghost use Rattle.graph_core.specs.DataGraph.{IsDataGraph, size};
ghost use Rattle.graph_core.specs.Growth.{numbers_of};
ghost use Rattle.graph_atoms.specs.atom_cut.Cuts.{atom_numbers};
ghost use Rattle.graph_atoms.specs.atom_cut.Atoms.{AreAtoms, AreAtomVertices, is_in};
ghost use Rattle.graph_atoms.specs.atom_cut.Inner.Filling.{AllHold, Gains, AllGain, when, ends_in};

use gl_base::{AtomNo, EdgeLine, EdgeNo, GhostLine, Lines, NoMemory, Vertex, VertexLine};
use graph_core::Graph;
use std::alloc::Global;

/// The lines of each of so many atoms, where `of` says in which atom each vertex is.
#[tactic(auto, using(crate::proofs::atom_cut::FillLemmas::atoms_from_hold))]
pub fn lines_of(
    alloc: Global,
    graph: &Graph,
    of: &[AtomNo],
    atoms: u16,
) -> Result<Vec<Lines>, NoMemory>
    requires each { length of.now ≡ size graph.now }
    requires below { All (λ a. a.0 < atoms) of.now }
    ensures { IfOk result (λ lines. AreAtoms graph.now (atom_numbers of.now) atoms lines.items) }
{
    let mut lines = no_lines(alloc, graph, of, atoms)?;
    fill(alloc, graph, of, &mut lines)?;
    Ok(lines)
}

/// The lines of each of so many atoms without its edges, where `of` says in which atom each vertex
/// is.
#[tactic(auto, using(crate::proofs::atom_cut::FillLemmas::vertices_from_hold))]
pub fn vertices_of(
    alloc: Global,
    graph: &Graph,
    of: &[AtomNo],
    atoms: u16,
) -> Result<Vec<Lines>, NoMemory>
    requires each { length of.now ≡ size graph.now }
    requires below { All (λ a. a.0 < atoms) of.now }
    ensures lines { IfOk result (λ lines.
        AreAtomVertices graph.now (atom_numbers of.now) atoms lines.items) }
    ensures graph { IfOk result (λ lines. IsDataGraph graph.now) }
{
    let mut lines = no_lines(alloc, graph, of, atoms)?;
    add_vertices(graph, of, &mut lines)?;
    add_ghosts(alloc, graph, of, &mut lines)?;
    Ok(lines)
}

/// No line for each of so many atoms.
fn no_lines(alloc: Global, graph: &Graph, of: &[AtomNo], atoms: u16) -> Result<Vec<Lines>, NoMemory>
    ensures count { IfOk result (λ lines. length lines.items ≡ atoms) }
    ensures none { IfOk result (λ lines.
        AllHold graph.now (atom_numbers of.now) 0 0 0 lines.items) }
{
    let mut lines = Vec::with_capacity(alloc, atoms as usize)?;
    for _ in 0..atoms {
        lines.push(Lines {
            vertices: Vec::new(alloc),
            ghosts: Vec::new(alloc),
            edges: Vec::new(alloc),
        })?;
    }
    Ok(lines)
}

/// Adds each vertex, ghost and edge to the atoms that have it.
fn fill(alloc: Global, graph: &Graph, of: &[AtomNo], lines: &mut [Lines]) -> Result<(), NoMemory>
    requires each { length of.now ≡ size graph.now }
    requires below { All (λ a. a.0 < length lines.old) of.now }
    requires none { AllHold graph.now (atom_numbers of.now) 0 0 0 lines.old }
    ensures { OnOk result
        (AllHold graph.now (atom_numbers of.now) (size graph.now) (size graph.now)
        (length graph.now.edges) lines.new) }
{
    add_vertices(graph, of, lines)?;
    add_ghosts(alloc, graph, of, lines)?;
    add_edges(graph, of, lines)
}

/// Adds each vertex to its atom.
fn add_vertices(graph: &Graph, of: &[AtomNo], lines: &mut [Lines]) -> Result<(), NoMemory>
    requires each { length of.now ≡ size graph.now }
    requires below { All (λ a. a.0 < length lines.old) of.now }
    requires none { AllHold graph.now (atom_numbers of.now) 0 0 0 lines.old }
    ensures held { OnOk result
        (AllHold graph.now (atom_numbers of.now) (size graph.now) 0 0 lines.new) }
    ensures graph { IsDataGraph graph.now }
{
    for v in 0..graph.n() {
        let vertex = Vertex(v);
        let id = graph.id(vertex);
        add_vertex(VertexLine { vertex, id }, of[v as usize], lines)?;
    }
    Ok(())
}

/// Adds a vertex to an atom.
fn add_vertex(line: VertexLine, atom: AtomNo, lines: &mut [Lines]) -> Result<(), NoMemory>
    requires { atom.0 < length lines.old }
    ensures { OnOk result (AllGain (λ a. when (atom.0 == a) line) (λ _ _. []) (λ _.
        []) lines.old lines.new) }
{
    push_vertex(line, &mut lines[atom.0 as usize])
}

/// Adds a vertex to the lines of an atom.
fn push_vertex(line: VertexLine, lines: &mut Lines) -> Result<(), NoMemory>
    ensures { OnOk result (Gains (line ∷ []) [] [] lines.old lines.new) }
{
    lines.vertices.push(line)?;
    Ok(())
}

/// Adds each vertex as a ghost to the other atoms around it, if there are any.
fn add_ghosts(
    alloc: Global,
    graph: &Graph,
    of: &[AtomNo],
    lines: &mut [Lines],
) -> Result<(), NoMemory>
    requires each { length of.now ≡ size graph.now }
    requires below { All (λ a. a.0 < length lines.old) of.now }
    requires vertices { AllHold graph.now (atom_numbers of.now) (size graph.now) 0 0 lines.old }
    ensures { OnOk result
        (AllHold graph.now (atom_numbers of.now) (size graph.now) (size graph.now) 0 lines.new) }
{
    if lines.len() <= 1 {
        return Ok(());
    }
    add_each_ghost(alloc, graph, of, lines)
}

/// Adds each vertex as a ghost to the other atoms around it.
fn add_each_ghost(
    alloc: Global,
    graph: &Graph,
    of: &[AtomNo],
    lines: &mut [Lines],
) -> Result<(), NoMemory>
    requires each { length of.now ≡ size graph.now }
    requires below { All (λ a. a.0 < length lines.old) of.now }
    requires vertices { AllHold graph.now (atom_numbers of.now) (size graph.now) 0 0 lines.old }
    ensures { OnOk result
        (AllHold graph.now (atom_numbers of.now) (size graph.now) (size graph.now) 0 lines.new) }
{
    let mut around = Vec::new(alloc);
    for v in 0..graph.n() {
        let vertex = Vertex(v);
        let line = GhostLine {
            vertex,
            id: graph.id(vertex),
            atom: of[v as usize],
        };
        graph.list_neighbours(vertex, &mut around)?;
        add_around(line, &around, of, lines)?;
    }
    Ok(())
}

/// Adds a ghost to each other atom that has one of these vertices.
fn add_around(
    line: GhostLine,
    around: &[Vertex],
    of: &[AtomNo],
    lines: &mut [Lines],
) -> Result<(), NoMemory>
    requires inside { All (λ v. v.0 < length of.now) around.now }
    requires below { All (λ a. a.0 < length lines.old) of.now }
    requires new { (a : ℕ) (d : Lines) → a < length lines.old →
        ends_in line.vertex.0 (slice_index_or lines.old a d).ghosts.items ≡ false }
    ensures { OnOk result (AllGain (λ _. []) (λ a _.
        when (not (line.atom.0 == a) && list_any (is_in (atom_numbers of.now) a)
        (numbers_of around.now)) line) (λ _. []) lines.old lines.new) }
{
    for vertex in around {
        add_ghost(line, of[vertex.0 as usize], lines)?;
    }
    Ok(())
}

/// Adds a ghost to an atom, where that is another and has it not yet.
fn add_ghost(line: GhostLine, atom: AtomNo, lines: &mut [Lines]) -> Result<(), NoMemory>
    requires { atom.0 < length lines.old }
    ensures { OnOk result (AllGain (λ _. []) (λ a old.
        when ((not (line.atom.0 == a) && (atom.0 == a)) && not
        (ends_in line.vertex.0 old.ghosts.items)) line) (λ _. []) lines.old lines.new) }
{
    if atom == line.atom {
        return Ok(());
    }
    push_ghost(line, &mut lines[atom.0 as usize])
}

/// Adds a ghost to the lines of an atom, where it is not the last one there.
fn push_ghost(line: GhostLine, lines: &mut Lines) -> Result<(), NoMemory>
    ensures { OnOk result
        (Gains [] (when (not (ends_in line.vertex.0 lines.old.ghosts.items)) line)
        [] lines.old lines.new) }
{
    if is_last(line.vertex, &lines.ghosts) {
        return Ok(());
    }
    lines.ghosts.push(line)?;
    Ok(())
}

/// Whether the last ghost is this vertex.
fn is_last(vertex: Vertex, ghosts: &[GhostLine]) -> bool
    ensures { result ≡ ends_in vertex.0 ghosts.now }
{
    match ghosts.last() {
        Some(last) => last.vertex == vertex,
        None => false,
    }
}

/// Adds each edge to the atoms of its ends.
fn add_edges(graph: &Graph, of: &[AtomNo], lines: &mut [Lines]) -> Result<(), NoMemory>
    requires each { length of.now ≡ size graph.now }
    requires below { All (λ a. a.0 < length lines.old) of.now }
    requires ghosts { AllHold graph.now (atom_numbers of.now) (size graph.now)
        (size graph.now) 0 lines.old }
    ensures { OnOk result
        (AllHold graph.now (atom_numbers of.now) (size graph.now) (size graph.now)
        (length graph.now.edges) lines.new) }
{
    for e in 0..graph.m() {
        let line = graph.edge(EdgeNo(e));
        let from = of[line.from.0 as usize];
        add_edge(line, from, of[line.to.0 as usize], lines)?;
    }
    Ok(())
}

/// Adds an edge to the atoms of its ends, once where they are one.
fn add_edge(line: EdgeLine, from: AtomNo, to: AtomNo, lines: &mut [Lines]) -> Result<(), NoMemory>
    requires from { from.0 < length lines.old }
    requires to { to.0 < length lines.old }
    ensures { OnOk result (AllGain (λ _. []) (λ _ _. []) (λ a.
        when (from.0 == a || to.0 == a) line) lines.old lines.new) }
{
    push_edge(line, &mut lines[from.0 as usize])?;
    if to == from {
        return Ok(());
    }
    push_edge(line, &mut lines[to.0 as usize])
}

/// Adds an edge to the lines of an atom.
fn push_edge(line: EdgeLine, lines: &mut Lines) -> Result<(), NoMemory>
    ensures { OnOk result (Gains [] [] (line ∷ []) lines.old lines.new) }
{
    lines.edges.push(line)?;
    Ok(())
}
