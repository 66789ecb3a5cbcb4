//! The neighbours of a vertex, from the half-edges at it.
ghost use Rattle.std.specs.Prelude.{◌≡◌, ◌↔◌, map, IsTrue, OnErr, OnOk};
ghost use Rattle.gl_base.specs.Lists.{Ascends};
ghost use Rattle.graph_core.specs.Distinct.{AreDistinctOf};
ghost use Rattle.graph_core.specs.Growth.{numbers_of};
ghost use Rattle.graph_core.specs.Inner.HalfPairs.{AreOthers};

use crate::halves::Half;
use crate::sorting::rises;
use gl_base::{NoMemory, Vertex};

/// Lists the other ends of half-edges, each once, ascending. After `NoMemory` the list is
/// unchanged.
pub fn list_neighbours(list: &mut Vec<Vertex>, halves: &[Half]) -> Result<(), NoMemory>
    ensures others { OnOk result (AreOthers halves.now list.new.items) }
    ensures unchanged { OnErr result (list.new.items ≡ list.old.items) }
{
    list_others(list, halves)?;
    make_distinct(list);
    Ok(())
}

/// The other ends in the order of the half-edges.
fn list_others(list: &mut Vec<Vertex>, halves: &[Half]) -> Result<(), NoMemory>
    ensures others { OnOk result (list.new.items ≡ map (λ h. h.other) halves.now) }
    ensures unchanged { OnErr result (list.new.items ≡ list.old.items) }
{
    list.reserve(halves.len())?;
    list.clear();
    for half in halves {
        list.push_reserved(half.other);
    }
    Ok(())
}

/// Puts the vertices in order, and each one once. Those of a graph without direction are so
/// already.
pub fn make_distinct(list: &mut Vec<Vertex>)
    ensures { AreDistinctOf (numbers_of list.old.items) (numbers_of list.new.items) }
{
    if !rises(list) {
        list.sort_unstable_by_key(|v| v.0);
        list.dedup();
    }
}

/// Whether the numbers of the vertices ascend.
pub fn ascend(vertices: &[Vertex]) -> bool
    ensures { IsTrue result ↔ Ascends (numbers_of vertices.now) }
{
    rises(vertices)
}
