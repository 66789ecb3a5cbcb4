//! Both ends of each edge of lines, by the numbers of these.
ghost use Rattle.std.specs.Prelude.{◌≡◌, ◌<◌, ◌^◌, length};
ghost use Rattle.local_graph.specs.Lines.{line_out, line_into};
ghost use Rattle.local_graph.specs.Locals.{place_of_vertex};
ghost use Rattle.local_graph.specs.Played.{place_owner, place_or, side_of};

use crate::Side;
use gl_base::vertex_places::Places;
use gl_base::{EdgeLine, GhostLine, MachineNo, Vertex};
use graph_core::{Half, Keyed};

/// The half-edges of lines, each by the vertex where it is, and by `none` where that is not below
/// it.
#[derive(Drop)]
pub struct EndsOf<'a> {
    pub edges: &'a [EdgeLine],
    pub directed: bool,
    pub none: u32,
    ghost few: { length edges.now < 2 ^ 31 },
}

impl Keyed for EndsOf<'_> {
    type Item = Half;

    ghost use Rattle.local_graph.specs.Inner.Ends.{end_pairs};

    ghost list = { λ h. end_pairs h.directed h.none h.edges.now };

    #[inline]
    fn len(&self) -> usize {
        2 * self.edges.len()
    }

    #[inline]
    fn at(&self, place: usize) -> (u32, Half) {
        let line = self.edges[place / 2];
        if place % 2 == 0 {
            (line.from.0.min(self.none), half_out(line, self.directed))
        } else {
            (line.to.0.min(self.none), half_into(line, self.directed))
        }
    }
}

/// An edge where it begins.
fn half_out(line: EdgeLine, directed: bool) -> Half
    ensures { result ≡ line_out directed line }
{
    Half {
        edge: line.edge,
        other: line.to,
        weight: line.weight,
        out: true,
        into: !directed,
    }
}

/// An edge where it ends.
fn half_into(line: EdgeLine, directed: bool) -> Half
    ensures { result ≡ line_into directed line }
{
    Half {
        edge: line.edge,
        other: line.from,
        weight: line.weight,
        out: !directed,
        into: true,
    }
}

/// The place of a vertex, and `none` where it has none.
#[inline]
pub fn key_at(places: &Places, v: Vertex, none: u32) -> u32
    ensures { result ≡ place_or none (place_of_vertex places.now v.0) }
{
    match places.place(v) {
        Some(place) => place.min(none as usize) as u32,
        None => none,
    }
}

/// What stands at which place of a machine's order: its own vertices at the first so many, and its
/// ghosts behind them.
#[derive(Drop)]
pub struct Standing<'a> {
    pub me: MachineNo,
    pub many: usize,
    pub ghosts: &'a [GhostLine],
    pub places: &'a Places,
}

/// A half-edge as a side.
#[inline]
pub fn side_at(half: &Half, standing: &Standing<'_>) -> Side
    ensures { result ≡ side_of standing.now.me standing.now.many standing.now.ghosts.now
        standing.now.places.now half.now }
{
    let place = key_at(standing.places, half.other, u32::MAX);
    Side {
        edge: half.edge,
        other: half.other,
        place,
        owner: owner_of(place as usize, standing.me, standing.many, standing.ghosts),
    }
}

/// The owner of the vertex at a place.
#[inline]
fn owner_of(place: usize, me: MachineNo, many: usize, ghosts: &[GhostLine]) -> MachineNo
    ensures { result ≡ place_owner me many ghosts.now place }
{
    if place < many {
        return me;
    }
    match ghosts.get(place - many) {
        Some(line) => MachineNo(line.atom.0),
        None => me,
    }
}
