//! What a snapshot update saves, and what other machines are told of it.
ghost use Rattle.std.specs.Prelude.{◌≡◌, ◌<◌, ◌≤◌, [], ◌∷◌, length, vec_capacity};
ghost use Rattle.partition.specs.machine_numbers.Steps.{IsBlank};
ghost use Rattle.snapshot_machines.specs.marking.Inner.Marks.{CanTell, after_told, datum_here, done_view, edge_here, edges_left, ends_left, is_end_left, is_unmarked, mark_told, number_pended, sides_at, with_edges, with_mark, with_vertex};

use coordinator::snap_update::SnapPart;
use gl_base::{Datum, MachineNo, Peer, Vertex};
use local_graph::Side;
use machine_core::machine_updates::Prepared;
use partition::machine_numbers::Numbers;
use scope_locks::scope_pipe::Flight;
use wire::outboxes::Outboxes;
use wire::wire_msgs::{Done, Message};

/// Saves the number of a vertex, and of each edge at it whose other end has no mark yet. It takes
/// no memory.
pub fn save_marked(numbers: &Numbers, snaps: &mut SnapPart, v: Vertex)
    requires vertex { 0 < snaps.old.room.vertices }
    requires edges { length (sides_at numbers.now.local v.0) ≤ snaps.old.room.edges }
    ensures { snaps.new ≡ with_edges
        (edges_left numbers.now snaps.old.known (sides_at numbers.now.local v.0))
        (with_vertex v (datum_here numbers.now v.0).value snaps.old) }
{
    snaps.save_vertex(v, numbers.datum(v).value);
    let known = snaps.known();
    let sides = numbers.local.sides(v);
    for place in 0..sides.len() {
        save_edge(numbers, snaps, &sides[place], known);
    }
}

/// Saves the number of an edge where its other end has no mark yet.
fn save_edge(numbers: &Numbers, snaps: &mut SnapPart, side: &Side, known: u32)
    requires { 0 < snaps.old.room.edges }
    ensures { snaps.new ≡ with_edges (edges_left numbers.now known (side.now ∷ [])) snaps.old }
{
    if is_unmarked(numbers, side.other, known) {
        snaps.save_edge(side.edge, number_along(numbers, side));
    }
}

/// The number of the edge.
fn number_along(numbers: &Numbers, side: &Side) -> u64
    ensures { result ≡ edge_here numbers.now side.now.edge.0 }
{
    if (side.edge.0 as usize) < numbers.local.edge_count() {
        numbers.local.number(side.edge)
    } else {
        0
    }
}

/// Tells each of these machines of a snapshot update that isn't made yet. It takes no memory.
pub fn tell_marks(
    out: &mut Outboxes,
    numbers: &Numbers,
    known: u32,
    flight: Flight,
    prepared: Vec<Prepared>,
)
    requires can { CanTell out.old flight.scope flight.centre
        (length (sides_at numbers.now.local flight.centre.0)) prepared.items }
    requires version { (datum_here numbers.now flight.centre.0).version < 4294967295 }
    ensures { out.new ≡ after_told (mark_told numbers.now known flight.scope flight.centre)
        prepared.items out.old }
{
    for one in prepared {
        let Prepared { to, done } = one;
        let done = mark_done(numbers, known, flight, to, done);
        out.put(Peer::Machine(to), Message::Done(done));
    }
}

/// What machine `to` is told of a snapshot update, in the room of a blank message: those that
/// become pending take the list for those that are woken.
fn mark_done(numbers: &Numbers, known: u32, flight: Flight, to: MachineNo, blank: Done) -> Done
    requires blank { IsBlank blank flight.scope flight.centre
        (length (sides_at numbers.now.local flight.centre.0)) }
    requires version { (datum_here numbers.now flight.centre.0).version < 4294967295 }
    ensures { done_view result ≡ mark_told numbers.now known flight.scope flight.centre to }
{
    let Done {
        scope,
        centre,
        edges,
        wakes,
        pends,
        ..
    } = blank;
    let ends = list_ends(wakes, numbers, known, to, numbers.local.sides(centre));
    let number = number_pended(&ends, known);
    Done {
        scope,
        centre,
        datum: Some(with_mark(numbers.datum(flight.centre), known)),
        edges,
        wakes: pends,
        pends: ends,
        number,
    }
}

/// The number of the snapshot where these become pending for it, else 0.
fn number_pended(ends: &[Vertex], known: u32) -> u32
    ensures { result ≡ number_pended ends.now known }
{
    if ends.is_empty() { 0 } else { known }
}

/// The datum with the mark of this snapshot.
pub fn with_mark(old: Datum, known: u32) -> Datum
    requires { old.version < 4294967295 }
    ensures { result ≡ with_mark known old }
{
    Datum {
        value: old.value,
        version: old.version + 1,
        mark: known,
    }
}

/// Lists the ends of these sides that are vertices of machine `to` and have no mark yet.
#[tactic(auto, using(crate::proofs::marking::SaveLemmas::ends_more, crate::proofs::marking::SaveLemmas::ends_none))]
fn list_ends(
    list: Vec<Vertex>,
    numbers: &Numbers,
    known: u32,
    to: MachineNo,
    sides: &[Side],
) -> Vec<Vertex>
    requires none { list.items ≡ [] }
    requires room { length sides.now ≤ vec_capacity list }
    ensures { result.items ≡ ends_left numbers.now known to.0 sides.now }
{
    let mut list = list;
    for place in 0..sides.len() {
        let side = &sides[place];
        if is_end_left(numbers, side, to, known) {
            list.push_reserved(side.other);
        }
    }
    list
}

/// Whether the end of a side is a vertex of machine `to` and has no mark yet.
pub fn is_end_left(numbers: &Numbers, side: &Side, to: MachineNo, known: u32) -> bool
    ensures { result ≡ is_end_left numbers.now known to.0 side.now }
{
    side.owner.0 == to.0 && is_unmarked(numbers, side.other, known)
}

/// Whether a vertex has no mark of this snapshot yet.
fn is_unmarked(numbers: &Numbers, v: Vertex, known: u32) -> bool
    ensures { result ≡ is_unmarked numbers.now known v.0 }
{
    numbers.datum(v).mark < known
}
