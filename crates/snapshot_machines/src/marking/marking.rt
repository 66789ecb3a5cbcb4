//! Snapshot updates.
ghost use Rattle.std.specs.Prelude.{◌≡◌, ℕ, ◌<◌, ◌≤◌, true, None, Some, length, IfOk, IfSome, OnOk, OnErr, IsErrOf};
ghost use Rattle.partition.specs.machine_numbers.Views.{is_flagged};
ghost use Rattle.machine_core.specs.machine_parts.Order.{IsOrderly, KnowsPlaces};
ghost use Rattle.machine_core.specs.machine_parts.Parts.{part_of};
ghost use Rattle.machine_core.specs.machine_parts.Settings.{SameSettings};
ghost use Rattle.coordinator.specs.snap_update.Snaps.{IsSameButRoom};
ghost use Rattle.snapshot_machines.specs.marking.Marking.{HasEachRow, HasEndedPlan, HasMarked, HasOnlyMadeRoom, HasSavedMore, HasSavedOnce, MayMark};
ghost use Rattle.snapshot_machines.specs.marking.Seeding.{AreMarkedBelow};
ghost use Rattle.snapshot_machines.specs.marking.Sending.{AreMarksUpTo};
ghost use Rattle.snapshot_machines.specs.marking.Inner.Marks.{AreTasksOf, CanBeMarked, HasMarkedHere, HasUnplanned, IsReserved, IsRowIn, datum_here, edges_left, flight_at, is_own, links_at, pending_here, place_at, sides_at, with_edges, with_vertex};

use crate::marking::marks::mark_number;
use crate::marking::saving::{save_marked, tell_marks};
use crate::marking::seeding::seed;
use coordinator::snap_update::SnapPart;
use gl_base::{NoMemory, Refused, ScopeId, Vertex};
use machine_core::lock_release::release_all;
use machine_core::machine_parts::Core;
use machine_core::machine_updates::{Prepared, reserve_commit};
use partition::machine_numbers::Numbers;
use scope_locks::scope_pipe::Flight;
use std::alloc::Global;
use task_sets::task_sched::TaskSet;

/// Makes the snapshot update of a ready scope of this machine whose vertex is pending: saves the
/// number of the vertex, and of each edge to a neighbour that has no mark yet, and marks the
/// vertex. Those neighbours become pending, own ones at once and others by word to their machines,
/// and the scope's locks here are released. It is want of memory too where the version of the
/// vertex can't count one more, or the log has as many updates as it may. No vertex before `seen`,
/// ascending, is without the mark.
pub fn mark(
    alloc: Global,
    core: &mut Core,
    snaps: &mut SnapPart,
    seen: &mut usize,
    scope: ScopeId,
) -> Result<(), Refused>
    requires orderly { IsOrderly core.old }
    requires places { KnowsPlaces core.old }
    requires rows { HasEachRow core.old.numbers.local }
    requires base { core.old.terms.base ≤ snaps.old.known }
    requires seen { AreMarkedBelow core.old.numbers snaps.old.known seen.old }
    ensures marked { OnOk result (HasMarked core.old snaps.old core.new snaps.new scope) }
    ensures saved { HasSavedMore snaps.old snaps.new }
    ensures once { OnOk result (HasSavedOnce core.old snaps.old snaps.new scope) }
    ensures plans { OnOk result (HasEndedPlan core.old core.new scope) }
    ensures not_now { IsErrOf result Refused.NotNow → MayMark scope (part_of core.old) → ⊥ }
    ensures no_memory { IsErrOf result Refused.NoMemory → MayMark scope (part_of core.old) }
    ensures unchanged { OnErr result (HasOnlyMadeRoom core.old core.new) }
    ensures part { OnErr result (part_of core.new ≡ part_of core.old) }
    ensures same { OnErr result (IsSameButRoom snaps.old snaps.new) }
    ensures local { core.new.numbers.local ≡
        record core.old.numbers.local { kept = core.new.numbers.local.kept } }
    ensures outside { core.new.numbers.tasks.outside ≡ core.old.numbers.tasks.outside }
    ensures rows { HasEachRow core.new.numbers.local }
    ensures seen { AreMarkedBelow core.new.numbers snaps.new.known seen.new }
    ensures marks { AreMarksUpTo core.old.numbers snaps.old.known →
        AreMarksUpTo core.new.numbers snaps.new.known }
    ensures orderly { IsOrderly core.new }
    ensures places { KnowsPlaces core.new }
    ensures settings { SameSettings core.old core.new }
    ensures rest { core.new ≡ record core.old {
      numbers = core.new.numbers;
      pipe = core.new.pipe;
      locks = core.new.locks;
      out = core.new.out;
      spare = core.new.spare;
    } }
{
    let Some(centre) = centre_to_mark(core, scope) else {
        return Err(Refused::NotNow);
    };
    let flight = Flight { scope, centre };
    match reserve_mark(alloc, core, snaps, flight) {
        Ok(prepared) => {
            make_mark(core, snaps, flight, prepared);
            seed(core, snaps.known(), seen);
            Ok(())
        }
        Err(NoMemory) => Err(Refused::NoMemory),
    }
}

/// The vertex of a scope that may make its snapshot update now.
pub fn centre_to_mark(core: &Core, scope: ScopeId) -> Option<Vertex>
    requires { IsOrderly core.now }
    ensures some { IfSome result (λ centre. CanBeMarked core.now scope centre) }
    ensures none { result ≡ None → MayMark scope (part_of core.now) → ⊥ }
{
    if !core.pipe.is_ready(scope) {
        return None;
    }
    let centre = core.pipe.centre(scope);
    if is_pending(&core.numbers, centre) {
        Some(centre)
    } else {
        None
    }
}

/// Whether an own vertex is pending.
fn is_pending(numbers: &Numbers, v: Vertex) -> bool
    requires own { is_own numbers.now.local v.0 ≡ true }
    requires tasks { AreTasksOf numbers.now.local numbers.now.tasks }
    ensures { result ≡ pending_here numbers.now v.0 }
{
    match numbers.local.place(v) {
        Some(place) => is_pending_at(&numbers.tasks, place),
        None => unreachable!(),
    }
}

/// Whether the own vertex at this place is pending.
fn is_pending_at(tasks: &TaskSet, place: usize) -> bool
    requires { place < length tasks.now.task }
    ensures { result ≡ is_flagged tasks.now.pending place }
{
    let count = tasks.count() as usize;
    place < count && tasks.is_pending(Vertex(place as u32))
}

/// Makes room for the snapshot update of a scope in flight.
fn reserve_mark(
    alloc: Global,
    core: &mut Core,
    snaps: &mut SnapPart,
    flight: Flight,
) -> Result<Vec<Prepared>, NoMemory>
    requires orderly { IsOrderly core.old }
    requires flies { flight_at core.old.pipe flight.scope ≡ Some flight.centre }
    ensures reserved { IfOk result (λ ps. IsReserved core.new flight.scope flight.centre ps.items) }
    ensures vertex { OnOk result (0 < snaps.new.room.vertices) }
    ensures edges { OnOk result
        (length (sides_at core.new.numbers.local flight.centre.0) ≤ snaps.new.room.edges) }
    ensures made { HasOnlyMadeRoom core.old core.new }
    ensures part { part_of core.new ≡ part_of core.old }
    ensures same { IsSameButRoom snaps.old snaps.new }
    ensures orderly { IsOrderly core.new }
    ensures places { KnowsPlaces core.old → KnowsPlaces core.new }
    ensures settings { SameSettings core.old core.new }
{
    let prepared = reserve_commit(alloc, core, flight.scope)?;
    let degree = core.numbers.local.sides(flight.centre).len();
    snaps.reserve_mark(degree)?;
    Ok(prepared)
}

/// Makes the snapshot update for which there is room, but for the vertex that becomes pending where
/// none is. It takes no memory.
fn make_mark(core: &mut Core, snaps: &mut SnapPart, flight: Flight, prepared: Vec<Prepared>)
    requires orderly { IsOrderly core.old }
    requires base { core.old.terms.base ≤ snaps.old.known }
    requires can { CanBeMarked core.old flight.scope flight.centre }
    requires row { IsRowIn (links_at core.old.numbers.local flight.centre.0)
        (length (sides_at core.old.numbers.local flight.centre.0)) }
    requires reserved { IsReserved core.old flight.scope flight.centre prepared.items }
    requires vertex { 0 < snaps.old.room.vertices }
    requires edges { length
        (sides_at core.old.numbers.local flight.centre.0) ≤ snaps.old.room.edges }
    ensures marked { HasMarkedHere core.old snaps.old core.new snaps.new
        flight.scope flight.centre }
    ensures saved { HasSavedMore snaps.old snaps.new }
    ensures sides { snaps.new ≡ with_edges
        (edges_left core.old.numbers snaps.old.known
        (sides_at core.old.numbers.local flight.centre.0))
        (with_vertex flight.centre (datum_here core.old.numbers flight.centre.0).value snaps.old) }
    ensures plans { (place : ℕ) → place_at core.old.numbers.local flight.centre.0 ≡ Some place →
        HasUnplanned core.old.numbers.tasks core.new.numbers.tasks place }
    ensures local { core.new.numbers.local ≡
        record core.old.numbers.local { kept = core.new.numbers.local.kept } }
    ensures own { (x : ℕ) → is_own core.new.numbers.local x ≡ is_own core.old.numbers.local x }
    ensures outside { core.new.numbers.tasks.outside ≡ core.old.numbers.tasks.outside }
    ensures orderly { IsOrderly core.new }
    ensures places { KnowsPlaces core.old → KnowsPlaces core.new }
    ensures settings { SameSettings core.old core.new }
    ensures rest { core.new ≡ record core.old {
      numbers = core.new.numbers;
      pipe = core.new.pipe;
      locks = core.new.locks;
      out = core.new.out;
    } }
{
    let Flight { scope, centre } = flight;
    let known = snaps.known();
    tell_marks(&mut core.out, &core.numbers, known, flight, prepared);
    save_marked(&core.numbers, snaps, centre);
    release_all(&mut core.locks, core.numbers.local.part(centre), scope);
    core.pipe.finish(scope);
    mark_number(&mut core.numbers, centre, known);
}
