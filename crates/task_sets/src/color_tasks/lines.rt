//! Vertices in line, by colour.
ghost use Rattle.std.specs.Prelude.{◌≡◌, ◌≢◌, ℕ, ◌+◌, ◌<◌, ◌≤◌, ◌==◌, ◌&&◌, ◌||◌, ◌++◌, ◌∷◌, [], true, false, not, Some, length, map, nat_lt, slice_get, slice_set, slice_index_or, IfOk, IfSome, OnErr, OnOk, IfNone};
ghost use Rattle.std.specs.List.{All};
ghost use Rattle.task_sets.specs.color_tasks.Lines.{HasColour, is_in_line};
ghost use Rattle.task_sets.specs.color_tasks.Inner.Seats.{AreSeats, AreQueues, HasJoined, colour_row, colour_rows};

use crate::vertex_queue::VertexQueue;
use gl_base::{NoMemory, Vertex};
use std::alloc::Global;
use std::marker::Model;

/// Vertices in line, each in the line of its colour, first in, first out. There is room for all of
/// them, so that no later call takes memory, and the first in the line of a colour is found without
/// a look at another line. Vertices are numbered by their place in the machine's own order, from 0
/// on. Contracts see the colour of each, and which stand in line.
#[derive(Drop)]
pub struct ColorLines {
    seats: Vec<Seat>,
    rows: Vec<Vec<Vertex>>,
    queues: Vec<VertexQueue>,
}

/// The colour of a vertex, and its rank among those of its colour.
#[derive(Clone, Copy)]
struct Seat {
    colour: u32,
    rank: u32,
}

impl Model for ColorLines {
    ghost use Rattle.task_sets.specs.color_tasks.Lines.{LinesView};
    ghost use Rattle.task_sets.specs.color_tasks.Inner.Seats.{AreSeats, AreQueues, colour_rows, lines_of};

    ghost Value = { LinesView };

    ghost view = { λ l. lines_of l.seats.items l.queues.items };

    ghost invariant = { λ l. AreSeats l.seats.items (colour_rows l.rows.items) ×
        AreQueues (colour_rows l.rows.items) l.queues.items };
}

impl ColorLines {
    /// Lines for vertices of these colours, in which nobody stands. It takes memory for each colour
    /// up to the greatest; there is none for 2^32 vertices.
    pub fn new(alloc: Global, colours: &[u32]) -> Result<ColorLines, NoMemory>
        ensures few { OnOk result (length colours.now < 4294967296) }
        ensures colours { IfOk result (λ l. l.colours ≡ colours.now) }
        ensures none { IfOk result (λ l. (u : ℕ) → is_in_line l u ≡ false) }
    {
        if colours.len() > u32::MAX as usize {
            return Err(NoMemory);
        }
        let mut rows = empty_rows(alloc, greatest(colours) as usize + 1)?;
        let mut seats = Vec::with_capacity(alloc, colours.len())?;
        for place in 0..colours.len() {
            let seat = join(&mut rows, colours[place], Vertex(place as u32))?;
            seats.push_reserved(seat);
        }
        let queues = empty_queues(alloc, &rows)?;
        Ok(ColorLines {
            seats,
            rows,
            queues,
        })
    }

    /// The same lines, in which each vertex stands.
    pub fn full(alloc: Global, colours: &[u32]) -> Result<ColorLines, NoMemory>
        ensures colours { IfOk result (λ l. l.colours ≡ colours.now) }
        ensures all { IfOk result (λ l. (u : ℕ) → is_in_line l u ≡ nat_lt u (length colours.now)) }
    {
        let mut lines = ColorLines::new(alloc, colours)?;
        for place in 0..colours.len() {
            lines.add(Vertex(place as u32));
        }
        Ok(lines)
    }

    /// The vertex stands in the line of its colour, behind the others where it stood in none.
    pub fn add(&mut self, vertex: Vertex)
        requires { vertex.0 < length self.old.colours }
        ensures colours { self.new.colours ≡ self.old.colours }
        ensures waits { (u : ℕ) → is_in_line self.new u ≡ (u == vertex.0 || is_in_line self.old u) }
    {
        let seat = self.seats[vertex.0 as usize];
        self.queues[seat.colour as usize].add(Vertex(seat.rank));
    }

    /// The vertex leaves its line.
    pub fn remove(&mut self, vertex: Vertex)
        requires { vertex.0 < length self.old.colours }
        ensures colours { self.new.colours ≡ self.old.colours }
        ensures waits { (u : ℕ) →
            is_in_line self.new u ≡ (not (u == vertex.0) && is_in_line self.old u) }
    {
        let seat = self.seats[vertex.0 as usize];
        self.queues[seat.colour as usize].remove(Vertex(seat.rank));
    }

    /// The first in the line of a colour, and `None` exactly where nobody stands there.
    pub fn first(&self, colour: u32) -> Option<Vertex>
        ensures waits { IfSome result (λ v. is_in_line self.now v.0 ≡ true) }
        ensures colour { IfSome result (λ v. HasColour self.now v.0 colour) }
        ensures none { IfNone result ((u : ℕ) → HasColour self.now u colour →
            is_in_line self.now u ≡ false) }
    {
        let place = colour as usize;
        if place >= self.queues.len() {
            return None;
        }
        match self.queues[place].front() {
            Some(rank) => Some(self.rows[place][rank.0 as usize]),
            None => None,
        }
    }
}

/// The greatest of some colours, and 0 where there is none.
fn greatest(colours: &[u32]) -> u32
    ensures { All (λ c. c ≤ result) colours.now }
{
    let mut most = 0;
    for colour in colours {
        if *colour > most {
            most = *colour;
        }
    }
    most
}

/// So many rows, of which each is empty.
fn empty_rows(alloc: Global, count: usize) -> Result<Vec<Vec<Vertex>>, NoMemory>
    ensures count { IfOk result (λ rows. length rows.items ≡ count) }
    ensures empty { IfOk result (λ rows. (c : ℕ) → colour_row (colour_rows rows.items) c ≡ []) }
{
    let mut rows = Vec::with_capacity(alloc, count)?;
    for _ in 0..count {
        rows.push_reserved(Vec::new(alloc));
    }
    Ok(rows)
}

/// The vertex is the last in the row of its colour.
fn join(rows: &mut Vec<Vec<Vertex>>, colour: u32, vertex: Vertex) -> Result<Seat, NoMemory>
    requires within { colour < length rows.old.items }
    requires few { length (colour_row (colour_rows rows.old.items) colour) ≤ vertex.0 }
    ensures joined { IfOk result (λ seat.
        HasJoined (colour_rows rows.old.items) (colour_rows rows.new.items) seat vertex) }
    ensures colour { IfOk result (λ seat. seat.colour ≡ colour) }
    ensures count { length rows.new.items ≡ length rows.old.items }
{
    let row = &mut rows[colour as usize];
    let rank = row.len() as u32;
    row.push(vertex)?;
    Ok(Seat { colour, rank })
}

/// A queue for each row, with a place for each vertex in it, in which none stands.
fn empty_queues(alloc: Global, rows: &[Vec<Vertex>]) -> Result<Vec<VertexQueue>, NoMemory>
    requires few { (c : ℕ) → length (colour_row (colour_rows rows.now) c) < 4294967296 }
    ensures queues { IfOk result (λ queues. AreQueues (colour_rows rows.now) queues.items) }
    ensures none { IfOk result (λ queues. (c r : ℕ) →
        slice_index_or (slice_index_or queues.items c []) r false ≡ false) }
{
    let mut queues = Vec::with_capacity(alloc, rows.len())?;
    for row in rows {
        queues.push_reserved(VertexQueue::none(alloc, row.len() as u32)?);
    }
    Ok(queues)
}
