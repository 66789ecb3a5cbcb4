//! Vertices that become pending.
ghost use Rattle.std.specs.Prelude.{◌≡◌, ℕ, ◌<◌, ◌==◌, ◌||◌, true, length, slice_set};
ghost use Rattle.std.specs.List.{All};
ghost use Rattle.partition.specs.machine_numbers.Views.{AreTasksOf, is_own, place_at, flag_there, is_in_update, is_flagged};

use gl_base::Vertex;
use local_graph::LocalGraph;
use task_sets::task_sched::TaskSet;

/// Makes these own vertices pending.
pub fn pend_named(tasks: &mut TaskSet, local: &LocalGraph, vertices: &[Vertex])
    requires own { All (λ v. is_own local.now v.0 ≡ true) vertices.now }
    requires tasks { AreTasksOf local.now tasks.old }
    ensures each { (u : ℕ) →
        flag_there tasks.new.pending (place_at local.now u) ≡
        (is_in_update vertices.now u || flag_there tasks.old.pending (place_at local.now u)) }
    ensures rest { tasks.new ≡ record tasks.old {
      pending = tasks.new.pending;
      asked = tasks.new.asked;
    } }
{
    for place in 0..vertices.len() {
        pend_one(tasks, local, vertices[place]);
    }
}

/// Makes an own vertex pending.
pub fn pend_one(tasks: &mut TaskSet, local: &LocalGraph, v: Vertex)
    requires own { is_own local.now v.0 ≡ true }
    requires tasks { AreTasksOf local.now tasks.old }
    ensures each { (u : ℕ) →
        flag_there tasks.new.pending (place_at local.now u) ≡
        ((v.0 == u) || flag_there tasks.old.pending (place_at local.now u)) }
    ensures rest { tasks.new ≡ record tasks.old {
      pending = tasks.new.pending;
      asked = tasks.new.asked;
    } }
{
    match local.place(v) {
        Some(place) => pend_place(tasks, place),
        None => unreachable!(),
    }
}

/// Makes the vertex at this place pending.
pub fn pend_place(tasks: &mut TaskSet, place: usize)
    requires { place < length tasks.old.task }
    ensures set { tasks.new.pending ≡ slice_set tasks.old.pending place true }
    ensures is_pending { is_flagged tasks.new.pending place ≡ true }
    ensures rest { tasks.new ≡ record tasks.old {
      pending = tasks.new.pending;
      asked = tasks.new.asked;
    } }
{
    let count = tasks.count() as usize;
    if place < count {
        tasks.pend(Vertex(place as u32));
    }
}
