//! The own vertices in the scope of a vertex, from its sides: whoever has a neighbour is its
//! neighbour.
ghost use Rattle.std.specs.Prelude.{◌≡◌, ℕ, ◌+◌, ◌<◌, ◌≤◌, ◌==◌, ◌&&◌, ◌||◌, ◌++◌, ◌∷◌, true, [], nat_lt, if◌then◌else◌, vec_len, vec_capacity, OnOk};
ghost use Rattle.std.specs.List.{All, list_any};
ghost use Rattle.local_graph.specs.Locals.{place_of_vertex};
ghost use Rattle.local_graph.specs.Played.{numbers_of};
ghost use Rattle.local_graph.specs.Inner.AtPlaces.{ArePlain, IsSideTo, number_among, is_first_place, stands_near, scope_numbers};

use crate::Side;
use crate::ends::Standing;
use gl_base::{NoMemory, Vertex};
use graph_core::{ascend, make_distinct};

/// Whether a machine's own vertices ascend, and are just those that have the first so many places.
pub fn are_plain(owned: &[Vertex], standing: &Standing<'_>) -> bool
    requires { (x : ℕ) →
        is_first_place standing.now.many (place_of_vertex standing.now.places.now x) ≡ true →
        number_among x (numbers_of owned.now) ≡ true }
    ensures { result ≡ true → ArePlain owned.now standing.now.many standing.now.places.now }
{
    ascend(owned) && have_first_places(owned, standing)
}

/// Whether these vertices have places among the first so many.
fn have_first_places(owned: &[Vertex], standing: &Standing<'_>) -> bool
    ensures { result ≡ true →
        All (λ v. is_first_place standing.now.many
        (place_of_vertex standing.now.places.now v.0) ≡ true) owned.now }
{
    for v in owned {
        if !has_first_place(*v, standing) {
            return false;
        }
    }
    true
}

/// Whether a vertex has one of the first so many places.
#[inline]
fn has_first_place(v: Vertex, standing: &Standing<'_>) -> bool
    ensures { result ≡ is_first_place standing.now.many
        (place_of_vertex standing.now.places.now v.0) }
{
    match standing.places.place(v) {
        Some(place) => place < standing.many,
        None => false,
    }
}

/// Lists the own vertices in the scope of a vertex with these sides, in their order, in place of
/// what the list had. Where they are plain the sides tell which vertices are own ones, and else
/// each own vertex is looked at.
pub fn fill_scope(
    list: &mut Vec<Vertex>,
    v: Vertex,
    sides: &[Side],
    owned: &[Vertex],
    is_plain: bool,
    standing: &Standing<'_>,
) -> Result<(), NoMemory>
    requires plain { is_plain ≡ true →
        ArePlain owned.now standing.now.many standing.now.places.now }
    requires few { standing.now.many < 4294967295 }
    requires sides { All (IsSideTo standing.now.places.now) sides.now }
    ensures { OnOk result (numbers_of list.new.items ≡ scope_numbers owned.now v.0 sides.now) }
{
    list.clear();
    if is_plain {
        list_near(list, v, sides, standing)?;
        make_distinct(list);
        Ok(())
    } else {
        list_among(list, v, sides, owned)
    }
}

/// Lists those of a vertex and the other ends of its sides that have places among the first so
/// many. Where the other ends ascend, the vertex is put in its order.
fn list_near(
    list: &mut Vec<Vertex>,
    v: Vertex,
    sides: &[Side],
    standing: &Standing<'_>,
) -> Result<(), NoMemory>
    requires none { list.old.items ≡ [] }
    ensures { OnOk result ((x : ℕ) →
        number_among x (numbers_of list.new.items) ≡
        ((is_first_place standing.now.many
        (place_of_vertex standing.now.places.now v.0) && x == v.0) || list_any (λ s.
        nat_lt s.place standing.now.many && s.other.0 == x) sides.now)) }
{
    if sides.len() == usize::MAX {
        return Err(NoMemory);
    }
    list.reserve(sides.len() + 1)?;
    let mut waits = has_first_place(v, standing);
    for side in sides {
        waits = push_end(list, v, waits, side, standing.many);
    }
    if waits {
        list.push_reserved(v);
    }
    Ok(())
}

/// Lists the other end of a side where its place is among the first so many, and before it the
/// vertex that waits, where that is lower. Says whether that waits still.
#[inline]
fn push_end(list: &mut Vec<Vertex>, v: Vertex, waits: bool, side: &Side, many: usize) -> bool
    requires { vec_len list.old + (if waits then 2 else 1) ≤ vec_capacity list.old }
    ensures has { (x : ℕ) →
        (number_among x (numbers_of list.new.items) || (result && x == v.0)) ≡
        ((number_among x (numbers_of list.old.items) || (waits && x == v.0)) || (nat_lt
        side.now.place many && side.now.other.0 == x)) }
    ensures len { vec_len list.new + (if result then 1
        else 0) ≤ vec_len list.old + (if waits then 2 else 1) }
    ensures capacity { vec_capacity list.new ≡ vec_capacity list.old }
{
    if side.place as usize >= many {
        return waits;
    }
    if waits && v.0 < side.other.0 {
        list.push_reserved(v);
        list.push_reserved(side.other);
        return false;
    }
    list.push_reserved(side.other);
    waits
}

/// Lists those of the own vertices that are in the scope of a vertex with these sides, in their
/// order.
fn list_among(
    list: &mut Vec<Vertex>,
    v: Vertex,
    sides: &[Side],
    owned: &[Vertex],
) -> Result<(), NoMemory>
    requires none { list.old.items ≡ [] }
    ensures { OnOk result (numbers_of list.new.items ≡ scope_numbers owned.now v.0 sides.now) }
{
    for x in owned {
        let takes = takes_part(*x, v, sides);
        push_vertex(list, *x, takes)?;
    }
    Ok(())
}

/// Lists a vertex that takes part.
fn push_vertex(list: &mut Vec<Vertex>, x: Vertex, takes: bool) -> Result<(), NoMemory>
    ensures { OnOk result (list.new.items ≡ list.old.items ++ (if takes then x ∷ [] else [])) }
{
    if takes {
        list.push(x)?;
    }
    Ok(())
}

/// Whether x is in the scope of a vertex with these sides.
fn takes_part(x: Vertex, v: Vertex, sides: &[Side]) -> bool
    ensures { result ≡ stands_near v.0 sides.now x.0 }
{
    x == v || leads_to(sides, x)
}

fn leads_to(sides: &[Side], x: Vertex) -> bool
    ensures { result ≡ list_any (λ s. s.other.0 == x.0) sides.now }
{
    sides.iter().any(|side| side.other.0 == x.0)
}
