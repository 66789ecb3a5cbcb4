//! The sides of a vertex, from the half-edges at it.
ghost use Rattle.std.specs.Prelude.{◌≡◌, ◌+◌, ◌<◌, ◌≤◌, ◌||◌, ◌++◌, ◌∷◌, [], nat_lt, if◌then◌else◌, map, vec_len, vec_capacity, OnOk};
ghost use Rattle.local_graph.specs.Played.{side_of, sides_kept};

use crate::Side;
use crate::ends::{Standing, side_at};
use gl_base::NoMemory;
use graph_core::Half;

/// Lists these half-edges at a vertex as sides, in place of what the list had: each one of an own
/// vertex, and of a ghost those that lead to an own vertex.
pub fn fill_sides(
    list: &mut Vec<Side>,
    halves: &[Half],
    is_own: bool,
    standing: &Standing<'_>,
) -> Result<(), NoMemory>
    ensures { OnOk result (list.new.items ≡ sides_kept is_own standing.now.many
        (map (side_of standing.now.me standing.now.many standing.now.ghosts.now
        standing.now.places.now) halves.now)) }
{
    list.clear();
    list.reserve(halves.len())?;
    for half in halves {
        push_side(list, side_at(half, standing), is_own, standing.many);
    }
    Ok(())
}

/// Lists a side of an own vertex, or one that leads to a place among the first so many.
#[inline]
fn push_side(list: &mut Vec<Side>, side: Side, is_own: bool, many: usize)
    requires { vec_len list.old < vec_capacity list.old }
    ensures listed { list.new.items ≡
        list.old.items ++ (if is_own || nat_lt side.place many then side ∷ [] else []) }
    ensures len { vec_len list.new ≤ vec_len list.old + 1 }
    ensures capacity { vec_capacity list.new ≡ vec_capacity list.old }
{
    if is_own || (side.place as usize) < many {
        list.push_reserved(side);
    }
}
