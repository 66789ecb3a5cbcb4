//! An update on the numbers of all vertices and edges.
ghost use Rattle.std.specs.Prelude.{◌≡◌, List, ℕ, ◌+◌, ◌<◌, false, length, map, slice_index, slice_set, IfOk, OnErr};
ghost use Rattle.graph_core.specs.DataGraph.{size, IsDataGraph};
ghost use Rattle.graph_core.specs.HalfRows.{data_half};
ghost use Rattle.graph_core.specs.Halves.{halves_of};
ghost use Rattle.seq_run.specs.Runs.{AreNumbers};
ghost use Rattle.seq_run.specs.States.{is_woken};
ghost use Rattle.full_scope.specs.FullStates.{after_full, full_wakes};
ghost use Rattle.full_cluster.specs.Written.{state_in};
ghost use Rattle.full_cluster.specs.Inner.Making.{IsMade};
ghost use Rattle.full_cluster.specs.Inner.Rows.{nth_half, AreLinksOf, ComesFrom, IsRowAlong};

use crate::Division;
use crate::rows::{links_of, row_along, write_edges, write_ends};
use full_scope::{FullLink, FullProgram, update_lent};
use gl_base::{NoMemory, Vertex};
use graph_core::{Graph, Half};
use std::alloc::Global;
use update_api::Woken;

/// What an update makes: the new number of its vertex, those along the edges there (first of the
/// other ends, and behind them of the edges), and whom it wakes.
#[derive(Drop)]
pub struct MadeUpdate {
    pub centre: u64,
    pub row: Vec<u64>,
    pub woken: Woken,
}

/// Updates a vertex, and answers whom the update wakes. The lists have the numbers of all vertices
/// and of all edges. After `NoMemory` they are unchanged.
pub fn update_at<P: FullProgram>(
    alloc: Global,
    division: &Division<'_>,
    program: &P,
    v: Vertex,
    numbers: &mut [u64],
    edges: &mut [u64],
) -> Result<Woken, NoMemory>
    requires vertex { v.0 < size division.now.graph.now }
    requires count { length numbers.old ≡ size division.now.graph.now }
    requires edge_count { length edges.old ≡ length division.now.graph.now.edges }
    ensures numbers { let s = state_in numbers.old edges.old in let p = P.meaning program.now in
        let g = division.now.graph.now in
        IfOk result (λ woken. AreNumbers (size g) (after_full g p s v.0).vertex numbers.new) }
    ensures edges { let s = state_in numbers.old edges.old in let p = P.meaning program.now in
        let g = division.now.graph.now in
        IfOk result (λ woken. AreNumbers (length g.edges) (after_full g p s v.0).edge edges.new) }
    ensures woken { let s = state_in numbers.old edges.old in let p = P.meaning program.now in
        let g = division.now.graph.now in IfOk result (λ woken. (u : ℕ) →
        full_wakes g p s v.0 u ≡ is_woken woken (halves_of g v.0) u) }
    ensures unchanged { OnErr result ((numbers.new ≡ numbers.old) × (edges.new ≡ edges.old)) }
{
    let made = make_update(alloc, division, program, v, numbers, edges)?;
    write_made(division.graph.halves(v), v, &made, numbers, edges);
    Ok(made.woken)
}

/// Makes the update of a vertex on a copy of the numbers that it is lent. The lists have the numbers
/// of all vertices and of all edges.
pub(crate) fn make_update<P: FullProgram>(
    alloc: Global,
    division: &Division<'_>,
    program: &P,
    v: Vertex,
    numbers: &[u64],
    edges: &[u64],
) -> Result<MadeUpdate, NoMemory>
    requires vertex { v.0 < size division.now.graph.now }
    requires count { length numbers.now ≡ size division.now.graph.now }
    requires edge_count { length edges.now ≡ length division.now.graph.now.edges }
    ensures made { let s = state_in numbers.now edges.now in let p = P.meaning program.now in
        let g = division.now.graph.now in IfOk result (λ made.
        IsMade g (after_full g p s v.0) v.0 made.centre made.row.items) }
    ensures woken { let s = state_in numbers.now edges.now in let p = P.meaning program.now in
        let g = division.now.graph.now in IfOk result (λ made. (u : ℕ) →
        full_wakes g p s v.0 u ≡ is_woken made.woken (halves_of g v.0) u) }
{
    let halves = division.graph.halves(v);
    let links = links_of(alloc, division.graph, halves)?;
    let row = row_along(alloc, halves, numbers, edges)?;
    let around = Around {
        graph: division.graph,
        halves,
        links: &links,
    };
    Ok(make_along(program, v, &around, row, numbers[v.0 as usize]))
}

/// The half-edges at a vertex of a graph, with their links.
#[derive(Drop)]
struct Around<'a> {
    graph: &'a Graph,
    halves: &'a [Half],
    links: &'a [FullLink],
}

/// The same with the half-edges at the vertex, their links, the numbers along them, and that of the
/// vertex.
fn make_along<P: FullProgram>(
    program: &P,
    v: Vertex,
    around: &Around<'_>,
    mut row: Vec<u64>,
    mut centre: u64,
) -> MadeUpdate
    requires graph { IsDataGraph around.now.graph.now }
    requires undirected { around.now.graph.now.directed ≡ false }
    requires vertex { v.0 < size around.now.graph.now }
    requires halves { map data_half around.now.halves.now ≡ halves_of around.now.graph.now v.0 }
    requires links { AreLinksOf around.now.graph.now around.now.halves.now around.now.links.now }
    requires row { length row.items ≡ length around.now.halves.now + length around.now.halves.now }
    ensures made { (numbers edges : List ℕ) →
        IsRowAlong around.now.halves.now numbers edges row.items →
        centre ≡ slice_index numbers v.0 → let s = state_in numbers edges in
        let p = P.meaning program.now in let g = around.now.graph.now in
        IsMade g (after_full g p s v.0) v.0 result.centre result.row.items }
    ensures woken { (numbers edges : List ℕ) →
        IsRowAlong around.now.halves.now numbers edges row.items →
        centre ≡ slice_index numbers v.0 → let s = state_in numbers edges in
        let p = P.meaning program.now in let g = around.now.graph.now in (u : ℕ) →
        full_wakes g p s v.0 u ≡ is_woken result.woken (halves_of g v.0) u }
{
    let id = around.graph.id(v);
    let woken = update_lent(program, id, around.links, &mut centre, &mut row);
    MadeUpdate { centre, row, woken }
}

/// Writes what an update of v made: the number of v, those of the other ends of these half-edges,
/// and those of their edges.
pub(crate) fn write_made(
    halves: &[Half],
    v: Vertex,
    made: &MadeUpdate,
    numbers: &mut [u64],
    edges: &mut [u64],
)
    requires vertex { v.0 < length numbers.old }
    requires ends { (i : ℕ) → i < length halves.now →
        (nth_half halves.now i).other.0 < length numbers.old }
    requires edges { (i : ℕ) → i < length halves.now →
        (nth_half halves.now i).edge.0 < length edges.old }
    requires row { length made.now.row.items ≡ length halves.now + length halves.now }
    ensures count { length numbers.new ≡ length numbers.old }
    ensures edge_count { length edges.new ≡ length edges.old }
    ensures numbers { ComesFrom (λ i. (nth_half halves.now i).other.0)
        (slice_index made.now.row.items) (length halves.now)
        (slice_set numbers.old v.0 made.now.centre) numbers.new }
    ensures edges { ComesFrom (λ i. (nth_half halves.now i).edge.0) (λ i.
        slice_index made.now.row.items (length halves.now + i))
        (length halves.now) edges.old edges.new }
{
    numbers[v.0 as usize] = made.centre;
    write_ends(numbers, halves, &made.row);
    write_edges(edges, halves, &made.row);
}
