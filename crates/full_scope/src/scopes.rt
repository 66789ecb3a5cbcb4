//! The full scope of a vertex: what an update of it may read and write, its neighbours' numbers
//! among it.
ghost use Rattle.std.specs.Prelude.{◌≡◌, ◌+◌, ◌^◌, ◌<◌, length, slice_index, slice_set};
ghost use Rattle.std.specs.Borrow.{Array, Lends, sem, u64 as number};
ghost use Rattle.full_scope.specs.FullLinks.{IsFull};

use crate::FullLink;
use update_api::Direction;

/// Lends all that an update of a vertex may use: the vertex's identifier, its own number, which is
/// the centre, and for each edge at it the number of the other end and the edge's own number.
/// Nothing is copied. The update may write all of these numbers, and nothing else.
#[derive(Drop)]
pub struct FullScope<'a> {
    id: u64,
    links: &'a [FullLink],
    centre: &'a mut u64,
    numbers: &'a mut [u64],
    ghost fit: { IsFull links.now numbers.now },
}

impl<'a> FullScope<'a> {
    ghost use Rattle.full_scope.specs.FullScopes.{full_link_at, LendsFullCentre, LendsNumberAt};

    /// Returns the scope of the vertex with this identifier. The numbers of the other ends stand
    /// first, each at its link's place, and behind them those of the edges.
    pub fn new(
        id: u64,
        links: &'a [FullLink],
        centre: &'a mut u64,
        numbers: &'a mut [u64],
    ) -> FullScope<'a>
        requires { IsFull links.now numbers.old }
        ensures id { result.id ≡ id }
        ensures links { result.links.now ≡ links.entry.now }
        ensures centre { result.centre.now ≡ centre.old }
        ensures same_centre { result.centre.ghost_name ≡ centre.entry.ghost_name }
        ensures numbers { result.numbers.now ≡ numbers.old }
        ensures same_numbers { result.numbers.ghost_name ≡ numbers.entry.ghost_name }
    {
        FullScope {
            id,
            links,
            centre,
            numbers,
        }
    }

    /// Returns how many edges are at the vertex.
    pub fn degree(&self) -> usize
        ensures count { result ≡ length self.now.links.now }
        ensures small { result < 2 ^ 63 }
    {
        self.links.len()
    }

    /// Returns the identifier of the vertex.
    pub fn id(&self) -> u64
        ensures { result ≡ self.now.id }
    {
        self.id
    }

    /// Returns the number of the vertex.
    pub fn centre(&self) -> u64
        ensures { result ≡ self.now.centre.now }
    {
        *self.centre
    }

    /// Lends the number of the vertex, to be written.
    pub fn centre_mut(&mut self) -> &mut u64
        ensures* writes_back { sem 𝓛 (LendsFullCentre self.entry result) }
        ensures value { result.now ≡ self.old.centre.now }
    {
        self.centre
    }

    /// Returns the identifier of the other end of an edge.
    pub fn near_id(&self, i: usize) -> u64
        requires { i < length self.now.links.now }
        ensures { result ≡ (full_link_at self.now i).id }
    {
        self.links[i].id
    }

    /// Returns the number at the other end of an edge.
    pub fn near(&self, i: usize) -> u64
        requires { i < length self.now.links.now }
        ensures { result ≡ slice_index self.now.numbers.now i }
    {
        self.numbers[i]
    }

    /// Lends the number at the other end of an edge, to be written.
    pub fn near_mut(&mut self, i: usize) -> &mut u64
        requires { i < length self.old.links.now }
        ensures* writes_back { sem 𝓛 (LendsNumberAt self.entry i result) }
        ensures value { result.now ≡ slice_index self.old.numbers.now i }
    {
        self.number_at_mut(i)
    }

    /// Returns the number of an edge.
    pub fn edge(&self, i: usize) -> u64
        requires { i < length self.now.links.now }
        ensures { let place = length self.now.links.now + i in
            result ≡ slice_index self.now.numbers.now place }
    {
        self.numbers[self.links.len() + i]
    }

    /// Lends the number of an edge, to be written.
    pub fn edge_mut(&mut self, i: usize) -> &mut u64
        requires { i < length self.old.links.now }
        ensures* writes_back { let place = length self.old.links.now + i in
            sem 𝓛 (LendsNumberAt self.entry place result) }
        ensures value { let place = length self.old.links.now + i in
            result.now ≡ slice_index self.old.numbers.now place }
    {
        let place = self.links.len() + i;
        self.number_at_mut(place)
    }

    /// Lends the number at this place of the list, to be written.
    fn number_at_mut(&mut self, place: usize) -> &mut u64
        requires { place < length self.old.numbers.now }
        ensures* writes_back { sem 𝓛 (LendsNumberAt self.entry place result) }
        ensures value { result.now ≡ slice_index self.old.numbers.now place }
    {
        number_mut(self.numbers, place)
    }

    /// Returns the weight of an edge.
    pub fn weight(&self, i: usize) -> u32
        requires { i < length self.now.links.now }
        ensures { result ≡ (full_link_at self.now i).weight }
    {
        self.links[i].weight
    }

    /// Returns how an edge leads.
    pub fn direction(&self, i: usize) -> Direction
        requires { i < length self.now.links.now }
        ensures { result ≡ (full_link_at self.now i).direction }
    {
        self.links[i].direction
    }
}

/// Lends the number at this place, to be written.
fn number_mut(numbers: &mut [u64], place: usize) -> &mut u64
    requires { place < length numbers.old }
    ensures* writes_back { let set = slice_set numbers.old place in
        sem 𝓛 (Lends (Array number 0) number numbers.entry result set) }
    ensures value { result.now ≡ slice_index numbers.old place }
{
    &mut numbers[place]
}
