//! Tasks: which vertex is admitted next.
use gl_base::Vertex;
use std::alloc::Global;
use std::io;
use task_sets::task_sched::{Pick, TaskSet};

/// A call.
#[derive(Clone, Copy)]
enum Call {
    Wake(u32, u64),
    Pend(u32),
    Next,
    Ran(u32),
    Marked(u32),
    Acknowledged(u64),
    Reset,
}

/// Updates within a window, and snapshots first.
static WINDOW: [Call; 16] = [
    Call::Next,
    Call::Next,
    Call::Ran(0),
    Call::Next,
    Call::Acknowledged(1),
    Call::Next,
    Call::Pend(1),
    Call::Marked(1),
    Call::Next,
    Call::Ran(1),
    Call::Acknowledged(1),
    Call::Pend(1),
    Call::Next,
    Call::Marked(1),
    Call::Reset,
    Call::Next,
];

/// Of tasks those with near keys come first, and a key below theirs comes before them. Which task
/// is next is told by no clause.
static NEAR: [Call; 30] = [
    Call::Next,
    Call::Ran(0),
    Call::Next,
    Call::Ran(1),
    Call::Next,
    Call::Ran(2),
    Call::Next,
    Call::Ran(3),
    Call::Next,
    Call::Ran(4),
    Call::Next,
    Call::Wake(4, 100),
    Call::Wake(3, 90),
    Call::Wake(2, 10),
    Call::Wake(1, 12),
    Call::Next,
    Call::Next,
    Call::Next,
    Call::Next,
    Call::Next,
    Call::Ran(1),
    Call::Ran(2),
    Call::Ran(3),
    Call::Wake(3, 95),
    Call::Wake(2, 90),
    Call::Wake(1, 80),
    Call::Next,
    Call::Next,
    Call::Next,
    Call::Next,
];

/// Prints what calls of task sets answer in turn.
pub fn print_tasks(rt: &impl Print, alloc: Global) -> io::Result<()> {
    match TaskSet::new(alloc, 2, Some(1)) {
        Ok(mut set) => print_calls(rt, "window of 1", &mut set, &WINDOW)?,
        Err(fault) => println!(rt; "window of 1: {fault}")?,
    }
    match TaskSet::new(alloc, 5, None) {
        Ok(mut set) => print_calls(rt, "near tasks", &mut set, &NEAR),
        Err(fault) => println!(rt; "near tasks: {fault}"),
    }
}

fn print_calls(rt: &impl Print, name: &str, set: &mut TaskSet, calls: &[Call]) -> io::Result<()> {
    for call in calls {
        print!(rt; "{name}, ")?;
        print_call(rt, set, *call)?;
    }
    println!(rt;
        "{name}, in the end: has a task {}, a pending vertex {}",
        set.some_task().is_some(),
        set.some_pending().is_some()
    )
}

fn print_call(rt: &impl Print, set: &mut TaskSet, call: Call) -> io::Result<()> {
    match call {
        Call::Wake(v, key) => println!(rt;
            "wake {v} with key {key}: {}",
            wake(set, Vertex(v), key)
        ),
        Call::Pend(v) => println!(rt; "pend {v}: {}", pend(set, Vertex(v))),
        Call::Next => print_next(rt, set),
        Call::Ran(v) => println!(rt; "{v} ran: {}", ran(set, Vertex(v))),
        Call::Marked(v) => println!(rt; "{v} is marked: {}", marked(set, Vertex(v))),
        Call::Acknowledged(count) => println!(rt;
            "updates acknowledged {count}: {}",
            acknowledged(set, count)
        ),
        Call::Reset => {
            set.reset();
            println!(rt; "reset")
        }
    }
}

/// Prints the answers of `look` and of `next`.
fn print_next(rt: &impl Print, set: &mut TaskSet) -> io::Result<()> {
    print!(rt; "looked:")?;
    print_pick(rt, set.look())?;
    print!(rt; ", next:")?;
    print_pick(rt, set.next())?;
    println!(rt; "")
}

fn print_pick(rt: &impl Print, pick: Option<Pick>) -> io::Result<()> {
    match pick {
        Some(
            Pick {
                vertex,
                snapshot: true,
            },
        ) => print!(rt; " snapshot of {}", vertex.0),
        Some(Pick { vertex, .. }) => print!(rt; " update of {}", vertex.0),
        None => print!(rt; " none"),
    }
}

/// Each of these makes its call, if it has what the call asks for, and tells whether the vertex is
/// so then.
pub fn wake(set: &mut TaskSet, v: Vertex, key: u64) -> bool {
    if v.0 >= set.count() {
        return false;
    }
    set.wake(v, key);
    set.is_task(v)
}

pub fn pend(set: &mut TaskSet, v: Vertex) -> bool {
    if v.0 >= set.count() {
        return false;
    }
    set.pend(v);
    set.is_pending(v)
}

pub fn ran(set: &mut TaskSet, v: Vertex) -> bool {
    if !set.is_admitted(v) || !set.is_task(v) || set.is_pending(v) || set.outside() == u64::MAX {
        return false;
    }
    set.ran(v);
    !set.is_admitted(v)
}

pub fn marked(set: &mut TaskSet, v: Vertex) -> bool {
    if !set.is_admitted(v) || !set.is_pending(v) {
        return false;
    }
    set.marked(v);
    !set.is_pending(v)
}

pub fn acknowledged(set: &mut TaskSet, count: u64) -> bool {
    if count > set.outside() {
        return false;
    }
    set.acknowledged(count);
    true
}
