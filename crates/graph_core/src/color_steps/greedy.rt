//! The greedy colouring: vertices ascending, each gets the least colour that no neighbour before it
//! has.
ghost use Rattle.std.specs.Prelude.{◌≡◌, ◌≢◌, ℕ, ◌^◌, ◌<◌, ◌≤◌, length, slice_index_or, All, IfOk};
ghost use Rattle.graph_core.specs.Colourings.{IsProperColouring};
ghost use Rattle.graph_core.specs.DataGraph.{size};
ghost use Rattle.graph_core.specs.color_steps.Greedy.{IsGreedy};
ghost use Rattle.graph_core.specs.color_steps.Inner.Stamps.{AreStamped, IsFirstWithout};

use crate::{Graph, Half};
use gl_base::{NoMemory, Vertex};
use std::alloc::Global;

/// The colour of each vertex. Vertices ascending, each gets the least colour from 1 on that no
/// neighbour before it has. So the ends of each edge differ, and no colour is above one more than
/// the vertex has neighbours.
pub fn greedy_colouring(alloc: Global, graph: &Graph) -> Result<Vec<u32>, NoMemory>
    ensures count { IfOk result (λ colours. length colours.items ≡ size graph.now) }
    ensures greedy { IfOk result (λ colours.
        IsGreedy graph.now (λ v. slice_index_or colours.items v 0)) }
    ensures proper { IfOk result (λ colours.
        IsProperColouring graph.now (λ v. slice_index_or colours.items v 0)) }
{
    let count = graph.n();
    let mut colours = Vec::with_capacity(alloc, count as usize)?;
    let mut stamps = vec![in alloc; 0; count as usize + 1]?;
    for v in 0..count {
        let stamp = v + 1;
        stamp_taken(&mut stamps, stamp, graph.halves(Vertex(v)), &colours);
        colours.push_reserved(first_without(&stamps, stamp));
    }
    Ok(colours)
}

/// The greatest of some colours, and 0 where there is none.
pub fn greatest_colour(colours: &[u32]) -> u32
    ensures { All (λ colour. colour ≤ result) colours.now }
{
    colours.iter().copied().max().unwrap_or(0)
}

/// Stamps the colour of each vertex that a half-edge leads to and that has one. No earlier turn had
/// this stamp, so what it left need not be taken away.
fn stamp_taken(stamps: &mut Vec<u32>, stamp: u32, halves: &[Half], colours: &[u32])
    requires low { (u : ℕ) → u < length colours.now →
        slice_index_or colours.now u 0 < length stamps.old.items }
    ensures len { length stamps.new.items ≡ length stamps.old.items }
    ensures stamps { AreStamped stamp colours.now halves.now stamps.old.items stamps.new.items }
{
    for half in halves {
        let other = half.other.0 as usize;
        if other < colours.len() {
            stamps[colours[other] as usize] = stamp;
        }
    }
}

/// The first place from 1 on that has another stamp than this one.
fn first_without(stamps: &[u32], stamp: u32) -> u32
    requires few { length stamps.now < 2 ^ 32 }
    requires some { (k : ℕ) × (1 ≤ k) × (k < length stamps.now) ×
        (slice_index_or stamps.now k 0 ≢ stamp) }
    ensures { IsFirstWithout stamps.now stamp result }
{
    let mut place = 1;
    while stamps[place as usize] == stamp {
        place += 1;
    }
    place
}
