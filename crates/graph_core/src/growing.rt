//! The order of growth: breadth-first over the whole graph.
ghost use Rattle.std.specs.Prelude.{◌≡◌, ℕ, ◌<◌, ◌++◌, ◌∷◌, [], false, true, length, replicate, slice_index_or, All, AllPairs, IfOk, OnOk};
ghost use Rattle.graph_core.specs.DataGraph.{size};
ghost use Rattle.graph_core.specs.Growth.{numbers_of, unlisted, extended, listed_after, growth_order, ListsEach};
ghost use Rattle.graph_core.specs.Inner.GrowthMarks.{AreMarks, IsNextSeed};

use crate::Graph;
use gl_base::{NoMemory, Vertex};
use std::alloc::Global;

/// The vertices in the order of growth. It begins at the first vertex, takes vertices off the front
/// of a queue, and lists the neighbours of each that are not listed yet, ascending. Where the queue
/// is empty it goes on at the least vertex that is not listed.
pub fn growth(alloc: Global, graph: &Graph, first: Vertex) -> Result<Vec<Vertex>, NoMemory>
    requires { 0 < size graph.now → first.0 < size graph.now }
    ensures order { IfOk result (λ order. numbers_of order.items ≡ growth_order graph.now first.0) }
    ensures each { IfOk result (λ order. ListsEach (size graph.now) (numbers_of order.items)) }
{
    let count = graph.n() as usize;
    let mut listed = Vec::with_capacity(alloc, count)?;
    let mut around = Vec::new(alloc);
    let mut marks = vec![in alloc; false; count]?;
    list_all(graph, first, &mut listed, &mut around, &mut marks)?;
    Ok(listed)
}

/// Lists all vertices.
fn list_all(
    graph: &Graph,
    first: Vertex,
    listed: &mut Vec<Vertex>,
    around: &mut Vec<Vertex>,
    marks: &mut [bool],
) -> Result<(), NoMemory>
    requires first { 0 < size graph.now → first.0 < size graph.now }
    requires none { listed.old.items ≡ [] }
    requires room { length marks.old ≡ size graph.now }
    requires blank { marks.old ≡ replicate (length marks.old) false }
    ensures order { OnOk result (numbers_of listed.new.items ≡ growth_order graph.now first.0) }
    ensures each { OnOk result (ListsEach (size graph.now) (numbers_of listed.new.items)) }
{
    if marks.is_empty() {
        return Ok(());
    }
    list_from(graph, first, listed, around, marks)?;
    for v in 0..graph.n() {
        list_from(graph, Vertex(v), listed, around, marks)?;
    }
    Ok(())
}

/// Lists a vertex that is not listed, and all that it leads to.
fn list_from(
    graph: &Graph,
    seed: Vertex,
    listed: &mut Vec<Vertex>,
    around: &mut Vec<Vertex>,
    marks: &mut [bool],
) -> Result<(), NoMemory>
    requires inside { seed.0 < length marks.old }
    requires room { length marks.old ≡ size graph.now }
    requires marks { AreMarks (numbers_of listed.old.items) marks.old }
    ensures marks { OnOk result (AreMarks (numbers_of listed.new.items) marks.new) }
    ensures grown { OnOk result ((first : ℕ) →
        IsNextSeed graph.now first seed.0 (numbers_of listed.old.items) marks.old →
        numbers_of listed.new.items ≡ listed_after graph.now first (length listed.new.items)) }
    ensures kept { OnOk result ((v : ℕ) → slice_index_or marks.old v false ≡ true →
        slice_index_or marks.new v false ≡ true) }
    ensures seed { OnOk result (slice_index_or marks.new seed.0 false ≡ true) }
{
    if marks[seed.0 as usize] {
        return Ok(());
    }
    let mut place = listed.len();
    list_one(seed, listed, marks)?;
    'queue: while place < listed.len() {
        list_around(graph, place, listed, around, marks)?;
        place += 1;
    }
    Ok(())
}

/// Lists the neighbours of the vertex at a place.
fn list_around(
    graph: &Graph,
    place: usize,
    listed: &mut Vec<Vertex>,
    around: &mut Vec<Vertex>,
    marks: &mut [bool],
) -> Result<(), NoMemory>
    requires inside { place < length listed.old.items }
    requires room { length marks.old ≡ size graph.now }
    requires marks { AreMarks (numbers_of listed.old.items) marks.old }
    ensures listed { OnOk result
        (numbers_of listed.new.items ≡ extended graph.now place (numbers_of listed.old.items)) }
    ensures marks { OnOk result (AreMarks (numbers_of listed.new.items) marks.new) }
    ensures kept { OnOk result ((v : ℕ) → slice_index_or marks.old v false ≡ true →
        slice_index_or marks.new v false ≡ true) }
{
    graph.list_neighbours(listed[place], around)?;
    list_new(around, listed, marks)
}

/// Lists those of the vertices that are not listed.
fn list_new(
    vertices: &[Vertex],
    listed: &mut Vec<Vertex>,
    marks: &mut [bool],
) -> Result<(), NoMemory>
    requires inside { All (λ v. v.0 < length marks.old) vertices.now }
    requires ascending { AllPairs (λ u v. u < v) (numbers_of vertices.now) }
    requires marks { AreMarks (numbers_of listed.old.items) marks.old }
    ensures listed { OnOk result
        (numbers_of listed.new.items ≡ numbers_of listed.old.items ++ unlisted
        (numbers_of listed.old.items) (numbers_of vertices.now)) }
    ensures marks { OnOk result (AreMarks (numbers_of listed.new.items) marks.new) }
    ensures kept { OnOk result ((v : ℕ) → slice_index_or marks.old v false ≡ true →
        slice_index_or marks.new v false ≡ true) }
{
    for vertex in vertices {
        list_one(*vertex, listed, marks)?;
    }
    Ok(())
}

/// Lists a vertex, where it is not listed.
fn list_one(vertex: Vertex, listed: &mut Vec<Vertex>, marks: &mut [bool]) -> Result<(), NoMemory>
    requires inside { vertex.0 < length marks.old }
    requires marks { AreMarks (numbers_of listed.old.items) marks.old }
    ensures listed { OnOk result
        (numbers_of listed.new.items ≡ numbers_of listed.old.items ++ unlisted
        (numbers_of listed.old.items) (vertex.0 ∷ [])) }
    ensures marks { OnOk result (AreMarks (numbers_of listed.new.items) marks.new) }
    ensures kept { OnOk result ((v : ℕ) → slice_index_or marks.old v false ≡ true →
        slice_index_or marks.new v false ≡ true) }
    ensures marked { OnOk result (slice_index_or marks.new vertex.0 false ≡ true) }
{
    if marks[vertex.0 as usize] {
        return Ok(());
    }
    listed.push(vertex)?;
    marks[vertex.0 as usize] = true;
    Ok(())
}
