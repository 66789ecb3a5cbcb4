//! The half-edges of each vertex as rows.
ghost use Rattle.std.specs.Prelude.{◌≡◌, ℕ, ◌^◌, ◌<◌, ◌≤◌, List, [], length, map, slice_index_or, All, IfOk};
ghost use Rattle.graph_core.specs.DataGraph.{IsEdge};
ghost use Rattle.graph_core.specs.Edges.{data_edge};
ghost use Rattle.graph_core.specs.Halves.{halves_from};
ghost use Rattle.graph_core.specs.HalfRows.{data_half};

use crate::edges::Edge;
use crate::halves::{Half, HalvesOf};
use crate::rows::Rows;
use gl_base::NoMemory;
use std::alloc::Global;

/// For each of so many vertices, the edges at it, ascending.
pub fn half_rows(
    alloc: Global,
    count: usize,
    edges: &[Edge],
    directed: bool,
) -> Result<Rows<Half>, NoMemory>
    requires few { count < 2 ^ 32 }
    requires few_edges { length edges.now < 2 ^ 31 }
    requires edges { All (IsEdge count directed) (map data_edge edges.now) }
    ensures len { IfOk result (λ rows. length rows ≡ count) }
    ensures each { IfOk result (λ rows. (v : ℕ) → v < count →
        map data_half (slice_index_or rows v []) ≡ halves_from directed v 0
        (map data_edge edges.now)) }
{
    Rows::group(alloc, count, &HalvesOf { edges, directed })
}
