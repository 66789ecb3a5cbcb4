//! The numbers of a machine as a vertex is marked.
ghost use Rattle.std.specs.Prelude.{◌≡◌, ℕ, ◌<◌, ◌==◌, ◌&&◌, ◌||◌, not, true, false, Some, length, slice_get, slice_set};
ghost use Rattle.std.specs.List.{All};
ghost use Rattle.partition.specs.machine_numbers.Steps.{IsSideHere};
ghost use Rattle.partition.specs.machine_numbers.Views.{flag_there, is_flagged, is_in_update};
ghost use Rattle.snapshot_machines.specs.marking.Inner.Marks.{AreTasksOf, CanMarkNumber, HasMarkedNumber, HasUnplanned, ends_left, is_end_left, is_own, pending_here, place_at, sides_at};

use crate::marking::pending::pend_place;
use crate::marking::saving::{is_end_left, with_mark};
use gl_base::Vertex;
use local_graph::{LocalGraph, Side};
use partition::machine_numbers::Numbers;
use task_sets::task_sched::TaskSet;

/// The snapshot update of an own vertex is made: the vertex has the mark of this snapshot, and its
/// own neighbours without the mark become pending. It takes no memory.
pub fn mark_number(numbers: &mut Numbers, v: Vertex, known: u32)
    requires { CanMarkNumber numbers.old v }
    ensures { HasMarkedNumber numbers.old numbers.new v known }
{
    let marked = with_mark(numbers.datum(v), known);
    end_mark(&mut numbers.tasks, &numbers.local, v);
    pend_ends(numbers, v, known);
    numbers.local.set_datum(v, marked);
}

/// The snapshot update of an own vertex was made: it is not pending and not admitted any more.
fn end_mark(tasks: &mut TaskSet, local: &LocalGraph, v: Vertex)
    requires own { is_own local.now v.0 ≡ true }
    requires tasks { AreTasksOf local.now tasks.old }
    requires admitted { flag_there tasks.old.admitted (place_at local.now v.0) ≡ true }
    requires pending { flag_there tasks.old.pending (place_at local.now v.0) ≡ true }
    ensures each { (u : ℕ) →
        flag_there tasks.new.pending (place_at local.now u) ≡
        (flag_there tasks.old.pending (place_at local.now u) && not (u == v.0)) }
    ensures admitted { (k : ℕ) → place_at local.now v.0 ≡ Some k →
        tasks.new.admitted ≡ slice_set tasks.old.admitted k false }
    ensures plans { (k : ℕ) → place_at local.now v.0 ≡ Some k → HasUnplanned tasks.old tasks.new k }
    ensures tasks { AreTasksOf local.now tasks.new }
    ensures rest { tasks.new ≡ record tasks.old {
      pending = tasks.new.pending;
      admitted = tasks.new.admitted;
      planned = tasks.new.planned;
      plans = tasks.new.plans;
    } }
{
    match local.place(v) {
        Some(place) => end_place(tasks, place),
        None => unreachable!(),
    }
}

/// The same for the own vertex at this place.
fn end_place(tasks: &mut TaskSet, place: usize)
    requires inside { place < length tasks.old.task }
    requires admitted { is_flagged tasks.old.admitted place ≡ true }
    requires pending { is_flagged tasks.old.pending place ≡ true }
    ensures pending { tasks.new.pending ≡ slice_set tasks.old.pending place false }
    ensures admitted { tasks.new.admitted ≡ slice_set tasks.old.admitted place false }
    ensures plans { HasUnplanned tasks.old tasks.new place }
    ensures rest { tasks.new ≡ record tasks.old {
      pending = tasks.new.pending;
      admitted = tasks.new.admitted;
      planned = tasks.new.planned;
      plans = tasks.new.plans;
    } }
{
    let count = tasks.count() as usize;
    if place < count {
        tasks.marked(Vertex(place as u32));
    }
}

/// Own ends of the edges at v that have no mark yet become pending.
fn pend_ends(numbers: &mut Numbers, v: Vertex, known: u32)
    requires sides { All (IsSideHere numbers.old.local) (sides_at numbers.old.local v.0) }
    requires tasks { AreTasksOf numbers.old.local numbers.old.tasks }
    ensures each { (u : ℕ) →
        pending_here numbers.new u ≡
        (is_in_update (ends_left numbers.old known numbers.old.local.me.0
        (sides_at numbers.old.local v.0)) u || pending_here numbers.old u) }
    ensures rest { numbers.new ≡
        record numbers.old {
          tasks = record numbers.old.tasks {
            pending = numbers.new.tasks.pending;
            asked = numbers.new.tasks.asked;
          };
        } }
{
    let degree = numbers.local.sides(v).len();
    for place in 0..degree {
        let side = side_at(&numbers.local, v, place);
        pend_end(numbers, side, known);
    }
}

/// The side at this place.
fn side_at(local: &LocalGraph, v: Vertex, place: usize) -> Side
    requires { place < length (sides_at local.now v.0) }
    ensures { slice_get (sides_at local.now v.0) place ≡ Some result }
{
    local.sides(v)[place]
}

/// The end of a side becomes pending, where it is an own vertex that has no mark yet.
fn pend_end(numbers: &mut Numbers, side: Side, known: u32)
    requires side { IsSideHere numbers.old.local side }
    requires tasks { AreTasksOf numbers.old.local numbers.old.tasks }
    ensures each { (u : ℕ) →
        pending_here numbers.new u ≡
        ((is_end_left numbers.old known numbers.old.local.me.0
        side && side.other.0 == u) || pending_here numbers.old u) }
    ensures rest { numbers.new ≡
        record numbers.old {
          tasks = record numbers.old.tasks {
            pending = numbers.new.tasks.pending;
            asked = numbers.new.tasks.asked;
          };
        } }
{
    if is_end_left(numbers, &side, numbers.local.me(), known) {
        pend_place(&mut numbers.tasks, side.place as usize);
    }
}
