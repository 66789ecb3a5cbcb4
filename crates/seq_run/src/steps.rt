//! One update, on the numbers of all vertices and edges.
ghost use Rattle.std.specs.Prelude.{◌≡◌, ◌+◌, ◌<◌, ◌∷◌, ◌++◌, length, slice_index, slice_set};
ghost use Rattle.update_api.specs.Links.{AreLinks, nears_at};
ghost use Rattle.update_api.specs.Marks.{AreMarked};

use update_api::{Link, Program, Scope, Woken};

/// Updates the vertex with this number and identifier, and these edges at it. The numbers of all
/// vertices and edges stand in two flat lists, from which the scope is lent; no other number
/// changes.
pub fn update_vertex<P: Program>(
    program: &P,
    vertex: usize,
    id: u64,
    links: &[Link],
    values: &mut [u64],
    edges: &mut [u64],
) -> Woken
    requires vertex { vertex < length values.old }
    requires links { AreLinks links.now vertex (length values.old) (length edges.old) }
    ensures number { let nears = nears_at values.old edges.old links.now in
        let number = (P.meaning program.now).number (slice_index values.old vertex) nears in
        values.new ≡ slice_set values.old vertex number }
    ensures marks { let mark = (P.meaning program.now).mark (slice_index values.new vertex) in
        AreMarked mark values.old edges.old links.now edges.new }
    ensures woken { result
        ≡ (P.meaning program.now).woken (slice_index values.old vertex)
        (slice_index values.new vertex) }
{
    let (low, rest) = values.split_at_mut(vertex);
    let (centre, high) = rest.split_at_mut(1);
    update_centre(
        program,
        &Star { id, links },
        low,
        &mut centre[0],
        high,
        edges,
    )
}

/// A vertex with the edges at it.
#[derive(Drop)]
struct Star<'a> {
    id: u64,
    links: &'a [Link],
}

/// The update in its scope, where the vertex's number stands between those before it and those
/// behind it.
fn update_centre<P: Program>(
    program: &P,
    star: &Star<'_>,
    low: &[u64],
    centre: &mut u64,
    high: &[u64],
    edges: &mut [u64],
) -> Woken
    requires { let vertices = length low.now + 1 + length high.now in
        AreLinks star.now.links.now (length low.now) vertices (length edges.old) }
    ensures number { let values = low.now ++ centre.old ∷ high.now in
        centre.new ≡ (P.meaning program.now).number centre.old
        (nears_at values edges.old star.now.links.now) }
    ensures marks { let values = low.now ++ centre.old ∷ high.now in
        AreMarked ((P.meaning program.now).mark centre.new) values edges.old star.now.links.now
        edges.new }
    ensures woken { result ≡ (P.meaning program.now).woken centre.old centre.new }
{
    let mut scope = Scope::new(star.id, star.links, low, centre, high, edges);
    program.update(&mut scope)
}
