//! Vertices that are made tasks.
ghost use Rattle.std.specs.Prelude.{◌≡◌, ℕ, ◌<◌, ◌==◌, ◌&&◌, ◌||◌, true, length, slice_set, if◌then◌else◌};
ghost use Rattle.std.specs.List.{All};
ghost use Rattle.partition.specs.machine_numbers.Views.{AreTasksOf, is_own, place_at, flag_there, is_in_update};
ghost use Rattle.partition.specs.machine_numbers.Steps.{IsSideHere, wakes_along, wakes_there, wakes_of, woken_flags};

use gl_base::{MachineNo, Vertex};
use local_graph::{LocalGraph, Side};
use task_sets::task_sched::TaskSet;
use update_api::{Direction, Link, Woken};

/// Makes these own vertices tasks.
pub fn wake_named(tasks: &mut TaskSet, local: &LocalGraph, wakes: &[Vertex], key: u64)
    requires own { All (λ v. is_own local.now v.0 ≡ true) wakes.now }
    requires tasks { AreTasksOf local.now tasks.old }
    ensures each { (u : ℕ) →
        flag_there tasks.new.task (place_at local.now u) ≡
        (is_in_update wakes.now u || flag_there tasks.old.task (place_at local.now u)) }
    ensures rest { tasks.new ≡ record tasks.old { task = tasks.new.task } }
    ensures many { length tasks.new.task ≡ length tasks.old.task }
    ensures tasks { AreTasksOf local.now tasks.new }
{
    for place in 0..wakes.len() {
        wake_one(tasks, local, wakes[place], key);
    }
}

/// Makes those vertices tasks that an update wakes and the machine owns.
pub fn wake_along(
    tasks: &mut TaskSet,
    local: &LocalGraph,
    sides: &[Side],
    links: &[Link],
    woken: Woken,
    key: u64,
)
    requires many { length links.now ≡ length sides.now }
    requires sides { All (IsSideHere local.now) sides.now }
    requires tasks { AreTasksOf local.now tasks.old }
    ensures each { (u : ℕ) →
        flag_there tasks.new.task (place_at local.now u) ≡
        (wakes_of local.now.me.0 woken sides.now links.now u || flag_there tasks.old.task
        (place_at local.now u)) }
    ensures exact { tasks.new.task ≡ woken_flags local.now.me.0 woken sides.now
        links.now tasks.old.task }
    ensures rest { tasks.new ≡ record tasks.old { task = tasks.new.task } }
    ensures many { length tasks.new.task ≡ length tasks.old.task }
    ensures tasks { AreTasksOf local.now tasks.new }
{
    for place in 0..sides.len() {
        wake_end(tasks, local, &sides[place], &links[place], woken, key);
    }
}

/// Makes an own vertex a task.
fn wake_one(tasks: &mut TaskSet, local: &LocalGraph, v: Vertex, key: u64)
    requires own { is_own local.now v.0 ≡ true }
    requires tasks { AreTasksOf local.now tasks.old }
    ensures each { (u : ℕ) →
        flag_there tasks.new.task (place_at local.now u) ≡
        ((v.0 == u) || flag_there tasks.old.task (place_at local.now u)) }
    ensures rest { tasks.new ≡ record tasks.old { task = tasks.new.task } }
    ensures many { length tasks.new.task ≡ length tasks.old.task }
    ensures tasks { AreTasksOf local.now tasks.new }
{
    match local.place(v) {
        Some(place) => wake_place(tasks, place, key),
        None => unreachable!(),
    }
}

/// Makes the vertex at the other end of a side a task, where an update wakes it and the machine
/// owns it.
fn wake_end(
    tasks: &mut TaskSet,
    local: &LocalGraph,
    side: &Side,
    link: &Link,
    woken: Woken,
    key: u64,
)
    requires side { IsSideHere local.now side.now }
    requires tasks { AreTasksOf local.now tasks.old }
    ensures each { (u : ℕ) →
        flag_there tasks.new.task (place_at local.now u) ≡
        ((wakes_there local.now.me.0 woken side.now link.now && side.now.other.0 == u) || flag_there
        tasks.old.task (place_at local.now u)) }
    ensures exact { tasks.new.task ≡
        (if wakes_there local.now.me.0 woken side.now link.now then slice_set tasks.old.task
        side.now.place true else tasks.old.task) }
    ensures rest { tasks.new ≡ record tasks.old { task = tasks.new.task } }
    ensures many { length tasks.new.task ≡ length tasks.old.task }
    ensures tasks { AreTasksOf local.now tasks.new }
{
    if wakes_at(local.me(), woken, side, link) {
        wake_place(tasks, side.place as usize, key);
    }
}

/// Makes the vertex at this place a task.
fn wake_place(tasks: &mut TaskSet, place: usize, key: u64)
    requires { place < length tasks.old.task }
    ensures { tasks.new ≡ record tasks.old { task = slice_set tasks.old.task place true } }
{
    let count = tasks.count() as usize;
    if place < count {
        tasks.wake(Vertex(place as u32), key);
    }
}

/// Whether an update wakes the vertex at the other end of a side, and machine `to` owns that.
pub fn wakes_at(to: MachineNo, woken: Woken, side: &Side, link: &Link) -> bool
    ensures { result ≡ wakes_there to.0 woken side.now link.now }
{
    side.owner.0 == to.0 && leads_to_woken(woken, link)
}

/// Whether an update wakes the vertex at the other end of a link.
fn leads_to_woken(woken: Woken, link: &Link) -> bool
    ensures { result ≡ wakes_along woken link.now }
{
    match woken {
        Woken::Nobody => false,
        Woken::Ahead => link.direction != Direction::Into,
        Woken::Around => true,
    }
}
