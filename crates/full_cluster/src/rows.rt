//! The numbers along the edges at a vertex.
ghost use Rattle.std.specs.Prelude.{◌≡◌, ℕ, ◌+◌, ◌<◌, length, slice_index, true, ◌||◌, All, OnOk, IfOk};
ghost use Rattle.graph_core.specs.DataGraph.{size};
ghost use Rattle.graph_core.specs.HalfRows.{data_half};
ghost use Rattle.full_scope.specs.FullRows.{IsFullLink};
ghost use Rattle.full_cluster.specs.Inner.Rows.{nth_half, AreLinksOf, IsRowAlong, ComesFrom};

use full_scope::FullLink;
use gl_base::NoMemory;
use graph_core::{Graph, Half};
use std::alloc::Global;
use update_api::Direction;

/// The links of half-edges, each at its half's place.
pub fn links_of(alloc: Global, graph: &Graph, halves: &[Half]) -> Result<Vec<FullLink>, NoMemory>
    requires ends { (i : ℕ) → i < length halves.now →
        (nth_half halves.now i).other.0 < size graph.now }
    requires lead { All (λ half. (half.out || half.into) ≡ true) halves.now }
    ensures { IfOk result (λ links. AreLinksOf graph.now halves.now links.items) }
{
    let mut links = Vec::new(alloc);
    for half in halves {
        links.push(link_of(graph, half))?;
    }
    Ok(links)
}

/// The link of a half-edge, which leads one way at least.
fn link_of(graph: &Graph, half: &Half) -> FullLink
    requires end { half.now.other.0 < size graph.now }
    requires leads { (half.now.out || half.now.into) ≡ true }
    ensures { IsFullLink graph.now result (data_half half.now) }
{
    let direction = if !half.out {
        Direction::Into
    } else if !half.into {
        Direction::Out
    } else {
        Direction::Both
    };
    FullLink {
        id: graph.id(half.other),
        weight: half.weight,
        direction,
    }
}

/// The numbers along half-edges: first those of the other ends, and behind them those of the edges.
pub fn row_along(
    alloc: Global,
    halves: &[Half],
    numbers: &[u64],
    edges: &[u64],
) -> Result<Vec<u64>, NoMemory>
    requires ends { (i : ℕ) → i < length halves.now →
        (nth_half halves.now i).other.0 < length numbers.now }
    requires edges { (i : ℕ) → i < length halves.now →
        (nth_half halves.now i).edge.0 < length edges.now }
    ensures { IfOk result (λ row. IsRowAlong halves.now numbers.now edges.now row.items) }
{
    let mut row = Vec::new(alloc);
    for half in halves {
        row.push(numbers[half.other.0 as usize])?;
    }
    for half in halves {
        row.push(edges[half.edge.0 as usize])?;
    }
    Ok(row)
}

/// The other end of each half-edge gets its number of the row.
pub fn write_ends(numbers: &mut [u64], halves: &[Half], row: &[u64])
    requires ends { (i : ℕ) → i < length halves.now →
        (nth_half halves.now i).other.0 < length numbers.old }
    requires row { length row.now ≡ length halves.now + length halves.now }
    ensures count { length numbers.new ≡ length numbers.old }
    ensures written { ComesFrom (λ i. (nth_half halves.now i).other.0) (slice_index row.now)
        (length halves.now) numbers.old numbers.new }
{
    for (i, half) in halves.iter().enumerate() {
        numbers[half.other.0 as usize] = row[i];
    }
}

/// Each edge gets its number of the row, behind those of the other ends.
pub fn write_edges(edges: &mut [u64], halves: &[Half], row: &[u64])
    requires edges { (i : ℕ) → i < length halves.now →
        (nth_half halves.now i).edge.0 < length edges.old }
    requires row { length row.now ≡ length halves.now + length halves.now }
    ensures count { length edges.new ≡ length edges.old }
    ensures written { ComesFrom (λ i. (nth_half halves.now i).edge.0) (λ i.
        slice_index row.now (length halves.now + i))
        (length halves.now) edges.old edges.new }
{
    let count = halves.len();
    for (i, half) in halves.iter().enumerate() {
        edges[half.edge.0 as usize] = row[count + i];
    }
}
