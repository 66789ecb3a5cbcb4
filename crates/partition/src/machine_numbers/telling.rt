//! What other machines are told of an update.
ghost use Rattle.std.specs.Prelude.{◌≡◌, ◌<◌, ◌≤◌, ◌==◌, ◌&&◌, true, not, [], length, vec_capacity, IfOk};
ghost use Rattle.partition.specs.machine_numbers.Views.{is_own, sides_at, datum_here};
ghost use Rattle.partition.specs.machine_numbers.Steps.{IsBlank, TellsOf, told_datum, told_edges, told_wakes};

use crate::machine_numbers::Numbers;
use crate::machine_numbers::waking::wakes_at;
use gl_base::{Datum, EdgeNo, MachineNo, NoMemory, ScopeId, Vertex};
use local_graph::{Outcome, Side};
use std::alloc::Global;
use update_api::{Link, Woken};
use wire::wire_msgs::Done;

/// A message that tells nothing yet of the update of this scope, with room for a vertex with so
/// many edges.
pub fn blank_done(
    alloc: Global,
    scope: ScopeId,
    centre: Vertex,
    degree: usize,
) -> Result<Done, NoMemory>
    ensures { IfOk result (λ done. IsBlank done scope centre degree) }
{
    Ok(Done {
        scope,
        centre,
        datum: None,
        edges: Vec::with_capacity(alloc, degree)?,
        wakes: Vec::with_capacity(alloc, degree)?,
        pends: Vec::new(alloc),
        number: 0,
    })
}

impl Numbers {
    /// Fills a blank message with what machine `to` is told of an update that was made and is not
    /// finished yet: the new datum where the number changed, the new numbers of those edges to
    /// vertices of `to` that changed, and which vertices of `to` it wakes. It takes no memory.
    pub fn tell(&self, done: &mut Done, to: MachineNo, outcome: &Outcome)
        requires blank { IsBlank done.old outcome.now.work.scope outcome.now.work.vertex
            (length (sides_at self.now.local outcome.now.work.vertex.0)) }
        requires links { length outcome.now.work.row.links.items ≡ length
            (sides_at self.now.local outcome.now.work.vertex.0) }
        requires numbers { length outcome.now.work.row.numbers.items ≡ length
            (sides_at self.now.local outcome.now.work.vertex.0) }
        requires edges { length outcome.now.edges.items ≡ length
            (sides_at self.now.local outcome.now.work.vertex.0) }
        requires version { (datum_here self.now outcome.now.work.vertex.0).version < 4294967295 }
        ensures { TellsOf self.now to outcome.now done.new }
    {
        let work = &outcome.work;
        let sides = self.local.sides(work.vertex);
        done.datum = datum_told(self.datum(work.vertex), outcome.value);
        fill_edges(
            &mut done.edges,
            to,
            sides,
            &work.row.numbers,
            &outcome.edges,
        );
        fill_wakes(&mut done.wakes, to, sides, &work.row.links, outcome.woken);
    }
}

/// The datum with this new number, where that is another one.
fn datum_told(old: Datum, value: u64) -> Option<Datum>
    requires { old.version < 4294967295 }
    ensures { result ≡ told_datum old value }
{
    if value == old.value {
        None
    } else {
        Some(Datum {
            value,
            version: old.version + 1,
            mark: old.mark,
        })
    }
}

/// Lists the edges to vertices of machine `to` whose numbers changed.
fn fill_edges(
    edges: &mut Vec<(EdgeNo, u64)>,
    to: MachineNo,
    sides: &[Side],
    old: &[u64],
    new: &[u64],
)
    requires none { edges.old.items ≡ [] }
    requires room { length sides.now ≤ vec_capacity edges.old }
    requires old_numbers { length old.now ≡ length sides.now }
    requires new_numbers { length new.now ≡ length sides.now }
    ensures { edges.new.items ≡ told_edges to.0 sides.now old.now new.now }
{
    for place in 0..sides.len() {
        let side = &sides[place];
        if is_changed(side, to, old[place], new[place]) {
            edges.push_reserved((side.edge, new[place]));
        }
    }
}

/// Whether the number of an edge changed, and its other end is a vertex of machine `to`.
fn is_changed(side: &Side, to: MachineNo, old: u64, new: u64) -> bool
    ensures { result ≡ (side.now.owner.0 == to.0 && not (old == new)) }
{
    side.owner.0 == to.0 && old != new
}

/// Lists the vertices of machine `to` that an update wakes.
fn fill_wakes(wakes: &mut Vec<Vertex>, to: MachineNo, sides: &[Side], links: &[Link], woken: Woken)
    requires none { wakes.old.items ≡ [] }
    requires room { length sides.now ≤ vec_capacity wakes.old }
    requires many { length links.now ≡ length sides.now }
    ensures { wakes.new.items ≡ told_wakes to.0 woken sides.now links.now }
{
    for place in 0..sides.len() {
        let side = &sides[place];
        if wakes_at(to, woken, side, &links[place]) {
            wakes.push_reserved(side.other);
        }
    }
}
