//! The part of the graph that a machine owns.
ghost use Rattle.std.specs.Prelude.{◌≡◌, ℕ, ◌<◌, ◌≤◌, ◌==◌, true, None, Some, is_some, length, if◌then◌else◌, vec_capacity};
ghost use Rattle.std.specs.List.{All};
ghost use Rattle.local_graph.specs.Played.{IsSideTo};
ghost use Rattle.local_graph.specs.Locals.{place_at, is_placed, is_own, own_datum, id_at, links_at, row_at, sides_at, parts_at, part_at, edge_number_at, HasEdge, numbers_along, set_where, written};

use crate::links::LinkRows;
use crate::numbers::EdgeNumbers;
use crate::{Row, Side};
use gl_base::vertex_places::Places;
use gl_base::{Datum, EdgeNo, GhostLine, MachineNo, Vertex};
use graph_core::Rows;
use std::marker::Model;

/// The part of the graph that a machine owns, with the data of its own vertices and the numbers of
/// edges. Contracts see it by the vertex's number; what is kept stands in an order of the machine's
/// own.
#[derive(Drop)]
pub struct LocalGraph {
    pub(crate) me: MachineNo,
    pub(crate) owned: Vec<Vertex>,
    pub(crate) ghosts: Vec<GhostLine>,
    pub(crate) places: Places,
    pub(crate) ids: Vec<u64>,
    pub(crate) kept: Vec<Datum>,
    pub(crate) links: LinkRows,
    pub(crate) outs: Vec<bool>,
    pub(crate) sides: Rows<Side>,
    pub(crate) parts: Rows<MachineNo>,
    pub(crate) part: Rows<Vertex>,
    pub(crate) numbers: EdgeNumbers,
}

impl Model for LocalGraph {
    ghost use Rattle.std.specs.Prelude.{map};
    ghost use Rattle.local_graph.specs.Locals.{LocalView};

    ghost Value = { LocalView };

    ghost use Rattle.local_graph.specs.Inner.Views.{local_view_of};
    ghost use Rattle.local_graph.specs.Inner.Kept.{IsWellKept};

    ghost view = { local_view_of };

    ghost invariant = { λ g. IsWellKept (local_view_of g) };
}

impl LocalGraph {
    /// The machine.
    pub fn me(&self) -> MachineNo
        ensures { result ≡ self.now.me }
    {
        self.me
    }

    /// Its own vertices, ascending.
    pub fn owned(&self) -> &[Vertex]
        ensures { result.now ≡ self.now.owned }
    {
        &self.owned
    }

    /// Its ghosts, ascending.
    pub fn ghosts(&self) -> &[GhostLine]
        ensures { result.now ≡ self.now.ghosts }
    {
        &self.ghosts
    }

    /// Whether the machine owns v.
    pub fn owns(&self, v: Vertex) -> bool
        ensures { result ≡ is_own self.now v.0 }
    {
        match self.places.place(v) {
            Some(place) => place < self.kept.len(),
            None => false,
        }
    }

    /// The place of v in the machine's own order, ghosts behind own vertices, and `None` where v is
    /// neither.
    #[inline]
    pub fn place(&self, v: Vertex) -> Option<usize>
        ensures { result ≡ place_at self.now v.0 }
    {
        self.places.place(v)
    }

    /// The identifier of an own vertex.
    pub fn id(&self, v: Vertex) -> u64
        requires { is_own self.now v.0 ≡ true }
        ensures { result ≡ id_at self.now v.0 }
    {
        match self.places.place(v) {
            Some(place) => self.ids[place],
            None => unreachable!(),
        }
    }

    /// The datum of an own vertex.
    pub fn datum(&self, v: Vertex) -> Datum
        requires { is_own self.now v.0 ≡ true }
        ensures { own_datum self.now v.0 ≡ Some result }
    {
        match self.places.place(v) {
            Some(place) => self.kept[place],
            None => unreachable!(),
        }
    }

    /// Writes the datum of an own vertex.
    pub fn set_datum(&mut self, v: Vertex, datum: Datum)
        requires { is_own self.old v.0 ≡ true }
        ensures datum { (x : ℕ) →
            own_datum self.new x ≡ (if x == v.0 then Some datum else own_datum self.old x) }
        ensures exact { self.new.kept ≡ set_where self.old.kept (place_at self.old v.0) datum }
        ensures rest { self.new ≡ record self.old { kept = self.new.kept } }
    {
        match self.places.place(v) {
            Some(place) => self.kept[place] = datum,
            None => unreachable!(),
        }
    }

    /// The edges at an own vertex or a ghost that the machine holds, in the order of edges.
    pub fn sides(&self, v: Vertex) -> &[Side]
        ensures { result.now ≡ sides_at self.now v.0 }
    {
        match self.places.place(v) {
            Some(place) => self.sides.row(place),
            None => &[],
        }
    }

    /// The same edges, each with the place of its other end.
    pub fn ends(&self, v: Vertex) -> &[Side]
        ensures sides { result.now ≡ sides_at self.now v.0 }
        ensures places { All (IsSideTo self.now.places) result.now }
    {
        match self.places.place(v) {
            Some(place) => self.sides.row(place),
            None => &[],
        }
    }

    /// The datum of the vertex at the end of a side that has its place, where that is an own one.
    #[inline]
    pub fn datum_along(&self, side: &Side) -> Option<Datum>
        requires { IsSideTo self.now.places side.now }
        ensures { result ≡ own_datum self.now side.now.other.0 }
    {
        let place = side.place as usize;
        if place < self.kept.len() {
            Some(self.kept[place])
        } else {
            None
        }
    }

    /// The machines of the scope of an own vertex, ascending.
    pub fn parts(&self, v: Vertex) -> &[MachineNo]
        requires { is_own self.now v.0 ≡ true }
        ensures { result.now ≡ parts_at self.now v.0 }
    {
        match self.places.place(v) {
            Some(place) => self.parts.row(place),
            None => unreachable!(),
        }
    }

    /// The own vertices in the scope of an own vertex or a ghost, ascending, and none for any other
    /// vertex.
    pub fn part(&self, v: Vertex) -> &[Vertex]
        ensures { result.now ≡ part_at self.now v.0 }
    {
        match self.places.place(v) {
            Some(place) => self.part.row(place),
            None => &[],
        }
    }

    /// How many edges the graph has.
    pub fn edge_count(&self) -> usize
        ensures { result ≡ length self.now.numbers }
    {
        self.numbers.count()
    }

    /// The number of an edge.
    pub fn number(&self, edge: EdgeNo) -> u64
        requires { HasEdge self.now edge.0 }
        ensures { result ≡ edge_number_at self.now edge.0 }
    {
        self.numbers.get(edge)
    }

    /// Writes the number of an edge.
    pub fn set_number(&mut self, edge: EdgeNo, number: u64)
        requires { HasEdge self.old edge.0 }
        ensures number { (e : ℕ) →
            edge_number_at self.new e ≡ (if e == edge.0 then number
            else edge_number_at self.old e) }
        ensures edges { (e : ℕ) → HasEdge self.old e → HasEdge self.new e }
        ensures many { length self.new.numbers ≡ length self.old.numbers }
        ensures rest { self.new ≡ record self.old { numbers = self.new.numbers } }
    {
        self.numbers.set(edge, number);
    }

    /// Whether v has a row here that is not out.
    pub fn has_row(&self, v: Vertex) -> bool
        ensures { result ≡ is_some (links_at self.now v.0) }
    {
        match self.places.place(v) {
            Some(place) => place < self.kept.len() && !self.outs[place],
            None => false,
        }
    }

    /// Lends out the row of an own vertex and the numbers of its edges, in lists that have room for
    /// them.
    pub fn take_row(&mut self, v: Vertex, spare: Row) -> Row
        requires row { is_some (links_at self.old v.0) ≡ true }
        requires room { length (sides_at self.old v.0) ≤ vec_capacity spare.numbers }
        requires link_room { length (sides_at self.old v.0) ≤ vec_capacity spare.links }
        ensures links { links_at self.old v.0 ≡ Some result.links.items }
        ensures row { result.links.items ≡ row_at self.old v.0 }
        ensures many { length result.links.items ≡ length (sides_at self.old v.0) }
        ensures numbers { result.numbers.items ≡ numbers_along (edge_number_at self.old)
            (sides_at self.old v.0) }
        ensures out { (x : ℕ) →
            links_at self.new x ≡ (if x == v.0 then None else links_at self.old x) }
        ensures rest { self.new ≡ record self.old { rows = self.new.rows } }
    {
        let Some(place) = self.places.place(v) else {
            unreachable!();
        };
        let Row { links, numbers } = spare;
        let numbers = self.numbers.lend(numbers, self.sides.row(place));
        let links = self.links.fill(place, links);
        self.outs[place] = true;
        Row { links, numbers }
    }

    /// The row of an own vertex is in again: writes the numbers of its edges.
    pub fn put_row(&mut self, v: Vertex, numbers: &[u64])
        requires own { is_own self.old v.0 ≡ true }
        requires numbers { length numbers.now ≡ length (sides_at self.old v.0) }
        ensures back { (x : ℕ) →
            links_at self.new x ≡ (if x == v.0 then Some (row_at self.old v.0)
            else links_at self.old x) }
        ensures numbers { (e : ℕ) →
            edge_number_at self.new e ≡ written (sides_at self.old v.0) numbers.now
            (edge_number_at self.old) e }
        ensures edges { (e : ℕ) → HasEdge self.old e → HasEdge self.new e }
        ensures many { length self.new.numbers ≡ length self.old.numbers }
        ensures exact { self.new.rows ≡ set_where self.old.rows (place_at self.old v.0)
            (Some (row_at self.old v.0)) }
        ensures rest { self.new ≡ record self.old {
          rows = self.new.rows;
          numbers = self.new.numbers;
        } }
    {
        let Some(place) = self.places.place(v) else {
            unreachable!();
        };
        self.numbers.keep(self.sides.row(place), numbers);
        self.outs[place] = false;
    }
}
