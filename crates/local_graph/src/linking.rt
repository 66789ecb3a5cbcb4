//! What the links of a row tell, from the half-edges at its vertex.
ghost use Rattle.std.specs.Prelude.{◌≡◌, map, OnOk};
ghost use Rattle.local_graph.specs.Lines.{direction_of};
ghost use Rattle.local_graph.specs.Inner.Ways.{way_of};

use crate::links::Way;
use gl_base::NoMemory;
use graph_core::Half;
use update_api::Direction;

/// Lists what these half-edges tell as links, in place of what the list had.
pub fn fill_ways(list: &mut Vec<Way>, halves: &[Half]) -> Result<(), NoMemory>
    ensures { OnOk result (list.new.items ≡ map way_of halves.now) }
{
    list.clear();
    list.reserve(halves.len())?;
    for half in halves {
        list.push_reserved(way(half));
    }
    Ok(())
}

/// What a half-edge tells as a link.
#[inline]
fn way(half: &Half) -> Way
    ensures { result ≡ way_of half.now }
{
    Way {
        weight: half.weight,
        direction: direction(half.out, half.into),
    }
}

/// How an edge leads that leads out of the vertex, into it, or both.
fn direction(out: bool, into: bool) -> Direction
    ensures { result ≡ direction_of out into }
{
    match (out, into) {
        (true, true) => Direction::Both,
        (true, false) => Direction::Out,
        (false, _) => Direction::Into,
    }
}
