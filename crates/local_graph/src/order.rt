//! The order in which a machine keeps its own vertices: breadth-first growth.
ghost use Rattle.std.specs.Prelude.{◌≡◌, ◌++◌, map, IfOk};
ghost use Rattle.std.specs.List.Sorted.{IsPermutation};

use crate::moving::move_all;
use gl_base::{GhostLine, NoMemory, Vertex, VertexLine};
use graph_core::{Half, Rows};
use std::alloc::Global;

/// The rank of an own vertex that was not reached.
const NONE: u32 = u32::MAX;

/// The rank of another vertex.
const OTHER: u32 = u32::MAX - 1;

/// The vertices of lines in the order of breadth-first growth over their edges: from `first`, where
/// that is one of them, and then from the least one that was not reached.
pub fn growth_order(
    alloc: Global,
    own: &[VertexLine],
    count: u32,
    first: Vertex,
    halves: &Rows<Half>,
) -> Result<Vec<VertexLine>, NoMemory>
    ensures { IfOk result (λ order. IsPermutation own.now order.items) }
{
    let ranks = growth_ranks(alloc, own, count, first, halves)?;
    in_order(alloc, own, &ranks)
}

/// The vertices of these lines, and behind them the ghosts.
pub fn list_known(
    alloc: Global,
    own: &[VertexLine],
    ghosts: &[GhostLine],
) -> Result<Vec<Vertex>, NoMemory>
    ensures { IfOk result (λ known.
        known.items ≡ map (λ v. v.vertex) own.now ++ map (λ g. g.vertex) ghosts.now) }
{
    let mut known = Vec::with_capacity(alloc, own.len().saturating_add(ghosts.len()))?;
    for line in own {
        known.push(line.vertex)?;
    }
    for line in ghosts {
        known.push(line.vertex)?;
    }
    Ok(known)
}

/// The lines in the order of the ranks of their vertices.
fn in_order(alloc: Global, lines: &[VertexLine], ranks: &[u32]) -> Result<Vec<VertexLine>, NoMemory>
    ensures { IfOk result (λ order. IsPermutation lines.now order.items) }
{
    let mut targets = targets_of(alloc, lines, ranks)?;
    let mut order = Vec::from_slice(alloc, lines)?;
    move_all(&mut order, &mut targets);
    Ok(order)
}

/// The rank of each line's vertex.
fn targets_of(alloc: Global, lines: &[VertexLine], ranks: &[u32]) -> Result<Vec<u32>, NoMemory> {
    let mut targets = Vec::with_capacity(alloc, lines.len())?;
    for line in lines {
        targets.push(rank_of(ranks, line.vertex))?;
    }
    Ok(targets)
}

#[inline]
fn rank_of(ranks: &[u32], v: Vertex) -> u32 {
    match ranks.get(v.0 as usize) {
        Some(rank) => *rank,
        None => OTHER,
    }
}

/// By vertex, of vertices with these half-edges: when breadth-first growth reaches it.
fn growth_ranks(
    alloc: Global,
    own: &[VertexLine],
    count: u32,
    first: Vertex,
    halves: &Rows<Half>,
) -> Result<Vec<u32>, NoMemory> {
    let mut growth = Growth {
        ranks: Vec::from_elem(alloc, OTHER, count as usize)?,
        queue: Vec::with_capacity(alloc, own.len())?,
        taken: 0,
    };
    growth.mark(own);
    growth.reach(first)?;
    for line in own {
        growth.reach_from(line.vertex, halves)?;
    }
    Ok(growth.ranks)
}

/// Own vertices as they are reached: the rank of each, they in turn, and how many of them were left
/// again.
#[derive(Drop)]
struct Growth {
    ranks: Vec<u32>,
    queue: Vec<Vertex>,
    taken: usize,
}

impl Growth {
    /// These are own vertices, which were not reached.
    fn mark(&mut self, own: &[VertexLine]) {
        for line in own {
            let v = line.vertex.0 as usize;
            if v < self.ranks.len() {
                self.ranks[v] = NONE;
            }
        }
    }

    /// Reaches a vertex, where it is an own one that was not reached.
    #[inline]
    fn reach(&mut self, vertex: Vertex) -> Result<(), NoMemory> {
        let v = vertex.0 as usize;
        if v < self.ranks.len() && self.ranks[v] == NONE {
            self.ranks[v] = u32::try_from(self.queue.len()).unwrap_or(OTHER);
            self.queue.push(vertex)?;
        }
        Ok(())
    }

    /// Reaches a vertex, and all that those reached so far lead to.
    fn reach_from(&mut self, vertex: Vertex, halves: &Rows<Half>) -> Result<(), NoMemory> {
        self.reach_ahead(halves)?;
        self.reach(vertex)?;
        self.reach_ahead(halves)
    }

    /// Reaches all that those reached so far lead to.
    fn reach_ahead(&mut self, halves: &Rows<Half>) -> Result<(), NoMemory> {
        for _ in self.taken..self.ranks.len() {
            if self.taken >= self.queue.len() {
                return Ok(());
            }
            let vertex = self.queue[self.taken];
            self.taken += 1;
            self.reach_around(vertex, halves)?;
        }
        Ok(())
    }

    /// Reaches the other ends of the edges at a vertex.
    fn reach_around(&mut self, vertex: Vertex, halves: &Rows<Half>) -> Result<(), NoMemory> {
        let v = vertex.0 as usize;
        if v >= halves.len() {
            return Ok(());
        }
        for half in halves.row(v) {
            self.reach(half.other)?;
        }
        Ok(())
    }
}
