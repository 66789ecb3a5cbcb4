//! The scope of a vertex: what an update of it may read and write.
ghost use Rattle.std.specs.Prelude.{◌≡◌, ◌≢◌, ℕ, ◌+◌, ◌^◌, ◌<◌, ◌∷◌, ◌++◌, length, slice_index, slice_set};
ghost use Rattle.std.specs.Borrow.{Array, Lends, sem, u64 as number};
ghost use Rattle.update_api.specs.Links.{AreLinks};

use crate::{Direction, Link};

/// What an update of a vertex may use: its identifier, its own number, which is the centre, and for
/// each edge at it the number of the other end and the edge's own number. All of it is lent, and
/// nothing is copied. The update may write the centre and the numbers of these edges.
#[derive(Drop)]
pub struct Scope<'a> {
    id: u64,
    links: &'a [Link],
    low: &'a [u64],
    centre: &'a mut u64,
    high: &'a [u64],
    edges: &'a mut [u64],
    ghost fit: { let vertices = length low.now + 1 + length high.now in
        AreLinks links.now (length low.now) vertices (length edges.now) },
}

impl<'a> Scope<'a> {
    ghost use Rattle.update_api.specs.Scopes.{numbers, link_at, LendsCentre, LendsEdge, LendsEdgeAt};

    /// The scope of the vertex with this identifier. The numbers before its own, its own, and those
    /// behind it are one list in three pieces: each link leads to a place of it other than the
    /// centre's, and has an edge that no other link has.
    pub fn new(
        id: u64,
        links: &'a [Link],
        low: &'a [u64],
        centre: &'a mut u64,
        high: &'a [u64],
        edges: &'a mut [u64],
    ) -> Scope<'a>
        requires { let vertices = length low.now + 1 + length high.now in
            AreLinks links.now (length low.now) vertices (length edges.old) }
        ensures id { result.id ≡ id }
        ensures links { result.links.now ≡ links.entry.now }
        ensures low { result.low.now ≡ low.entry.now }
        ensures centre { result.centre.now ≡ centre.old }
        ensures same_centre { result.centre.ghost_name ≡ centre.entry.ghost_name }
        ensures high { result.high.now ≡ high.entry.now }
        ensures edges { result.edges.now ≡ edges.old }
        ensures same_edges { result.edges.ghost_name ≡ edges.entry.ghost_name }
    {
        Scope {
            id,
            links,
            low,
            centre,
            high,
            edges,
        }
    }

    /// How many edges are at the vertex.
    pub fn degree(&self) -> usize
        ensures count { result ≡ length self.now.links.now }
        ensures small { result < 2 ^ 63 }
    {
        self.links.len()
    }

    /// The identifier of the vertex.
    pub fn id(&self) -> u64
        ensures { result ≡ self.now.id }
    {
        self.id
    }

    /// The number of the vertex.
    pub fn centre(&self) -> u64
        ensures { result ≡ self.now.centre.now }
    {
        *self.centre
    }

    /// The number of the vertex, to be written.
    pub fn centre_mut(&mut self) -> &mut u64
        ensures* writes_back { sem 𝓛 (LendsCentre self.entry result) }
        ensures value { result.now ≡ self.old.centre.now }
    {
        self.centre
    }

    /// The number at the other end of an edge.
    pub fn near(&self, i: usize) -> u64
        requires { i < length self.now.links.now }
        ensures { result ≡ slice_index (numbers self.now) (link_at self.now i).near }
    {
        let near = self.links[i].near as usize;
        number_at(self.low, self.high, near)
    }

    /// The number of an edge.
    pub fn edge(&self, i: usize) -> u64
        requires { i < length self.now.links.now }
        ensures { result ≡ slice_index self.now.edges.now (link_at self.now i).edge }
    {
        self.edges[self.links[i].edge as usize]
    }

    /// The number of an edge, to be written.
    pub fn edge_mut(&mut self, i: usize) -> &mut u64
        requires { i < length self.old.links.now }
        ensures* writes_back { sem 𝓛 (LendsEdge self.entry i result) }
        ensures value { result.now ≡ slice_index self.old.edges.now (link_at self.old i).edge }
    {
        let place = self.links[i].edge as usize;
        self.edge_at_mut(place)
    }

    /// The number of the edge at this place of the list, to be written.
    fn edge_at_mut(&mut self, place: usize) -> &mut u64
        requires { place < length self.old.edges.now }
        ensures* writes_back { sem 𝓛 (LendsEdgeAt self.entry place result) }
        ensures value { result.now ≡ slice_index self.old.edges.now place }
    {
        number_mut(self.edges, place)
    }

    /// The weight of an edge.
    pub fn weight(&self, i: usize) -> u32
        requires { i < length self.now.links.now }
        ensures { result ≡ (link_at self.now i).weight }
    {
        self.links[i].weight
    }

    /// How an edge leads.
    pub fn direction(&self, i: usize) -> Direction
        requires { i < length self.now.links.now }
        ensures { result ≡ (link_at self.now i).direction }
    {
        self.links[i].direction
    }
}

/// The number at this place of `low`, the centre and `high`, where it is not the centre's.
fn number_at(low: &[u64], high: &[u64], place: usize) -> u64
    requires within { place < length low.now + 1 + length high.now }
    requires not_centre { place ≢ length low.now }
    ensures { (centre : ℕ) → result ≡ slice_index (low.now ++ centre ∷ high.now) place }
{
    if place < low.len() {
        low[place]
    } else {
        high[place - low.len() - 1]
    }
}

/// The number at this place, to be written.
fn number_mut(numbers: &mut [u64], place: usize) -> &mut u64
    requires { place < length numbers.old }
    ensures* writes_back { let set = slice_set numbers.old place in
        sem 𝓛 (Lends (Array number 0) number numbers.entry result set) }
    ensures value { result.now ≡ slice_index numbers.old place }
{
    &mut numbers[place]
}
