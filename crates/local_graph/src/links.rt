//! The links of rows, by place.
ghost use Rattle.std.specs.Prelude.{◌≡◌, ◌<◌, ◌≤◌, ◌++◌, ◌∷◌, [], length, replicate, slice_index_or, vec_capacity, IfOk, OnOk};
ghost use Rattle.std.specs.List.{list_all};
ghost use Rattle.local_graph.specs.Inner.Ways.{is_plain, link_along, links_along, plain_way, ways_kept};

use gl_base::NoMemory;
use graph_core::Rows;
use std::alloc::Global;
use std::marker::Model;
use update_api::{Direction, Link};

/// What a link of a row tells beside its place.
#[derive(Clone, Copy)]
pub struct Way {
    pub weight: u32,
    pub direction: Direction,
}

/// An edge with the weight 1 and no direction.
const PLAIN: Way = Way {
    weight: 1,
    direction: Direction::Both,
};

/// The links of rows. Of a row whose edges are all plain it has their number alone, and of another
/// one what each link tells. Contracts see the rows.
#[derive(Drop)]
pub struct LinkRows {
    counts: Vec<u32>,
    ways: Rows<Way>,
}

impl Model for LinkRows {
    ghost use Rattle.std.specs.Prelude.{List};
    ghost use Rattle.update_api.specs.declared.links.Link.{Link};

    ghost Value = { List (List Link) };

    ghost use Rattle.local_graph.specs.Inner.Ways.{AreWaysKept, rows_kept};

    ghost view = { λ r. rows_kept r.counts.items r.ways };

    ghost invariant = { λ r. AreWaysKept r.counts.items r.ways };
}

impl LinkRows {
    /// No row, with room for so many.
    pub fn none(alloc: Global, rows: usize) -> Result<LinkRows, NoMemory>
        ensures { IfOk result (λ rows. rows ≡ []) }
    {
        Ok(LinkRows {
            counts: Vec::with_capacity(alloc, rows)?,
            ways: Rows::none(alloc, rows, 0)?,
        })
    }

    /// One more row behind the others. More than 4,294,967,295 links find no memory.
    pub fn push(&mut self, ways: &[Way]) -> Result<(), NoMemory>
        ensures { OnOk result (self.new ≡ self.old ++ links_along 0 ways.now ∷ []) }
    {
        if ways.len() > u32::MAX as usize {
            return Err(NoMemory);
        }
        self.counts.reserve(1)?;
        self.ways.push(told(ways))?;
        self.counts.push_reserved(ways.len() as u32);
        Ok(())
    }

    /// The links of a row, in a list that has room for them.
    #[inline]
    pub fn fill(&self, k: usize, spare: Vec<Link>) -> Vec<Link>
        requires row { k < length self.now }
        requires room { length (slice_index_or self.now k []) ≤ vec_capacity spare }
        ensures { result.items ≡ slice_index_or self.now k [] }
    {
        let ways = self.ways.row(k);
        if ways.is_empty() {
            fill_plain(spare, self.counts[k])
        } else {
            fill_along(spare, ways)
        }
    }
}

/// What is kept of a row: nothing where all its edges are plain.
#[tactic(auto, using(crate::proofs::WayLemmas::all_plain, crate::proofs::WayLemmas::kept_told))]
fn told(ways: &[Way]) -> &[Way]
    ensures kept { ways_kept (length ways.now) result.now ≡ ways.now }
    ensures many { length result.now ≤ length ways.now }
{
    if are_plain(ways) { &[] } else { ways }
}

/// Whether all edges of a row are plain.
fn are_plain(ways: &[Way]) -> bool
    ensures { result ≡ list_all is_plain ways.now }
{
    ways.iter().all(|way| has_none(*way))
}

/// Whether an edge has the weight 1 and no direction.
#[inline]
fn has_none(way: Way) -> bool
    ensures { result ≡ is_plain way }
{
    match way.direction {
        Direction::Both => way.weight == 1,
        Direction::Out => false,
        Direction::Into => false,
    }
}

/// The links of so many plain edges, in a list that has room for them.
#[tactic(auto, using(crate::proofs::WayLemmas::plain_more))]
fn fill_plain(spare: Vec<Link>, count: u32) -> Vec<Link>
    requires { count ≤ vec_capacity spare }
    ensures { result.items ≡ links_along 0 (replicate count plain_way) }
{
    let mut links = spare;
    links.clear();
    for place in 0..count {
        links.push_reserved(link_at(place, PLAIN));
    }
    links
}

/// The links that tell this, in a list that has room for them.
#[tactic(auto, using(crate::proofs::WayLemmas::along_more))]
fn fill_along(spare: Vec<Link>, ways: &[Way]) -> Vec<Link>
    requires room { length ways.now ≤ vec_capacity spare }
    requires few { length ways.now ≤ 4294967295 }
    ensures { result.items ≡ links_along 0 ways.now }
{
    let mut links = spare;
    links.clear();
    for place in 0..ways.len() {
        links.push_reserved(link_at(place as u32, ways[place]));
    }
    links
}

/// The link at this place of a row.
#[inline]
fn link_at(place: u32, way: Way) -> Link
    ensures { result ≡ link_along place way }
{
    Link {
        near: place,
        edge: place,
        weight: way.weight,
        direction: way.direction,
    }
}
