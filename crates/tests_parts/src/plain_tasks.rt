//! Random calls of a task set, beside plain lists of its vertices.
use crate::chances::{Chances, print_alike};
use crate::tasks::{acknowledged, marked, pend, ran, wake};
use gl_base::{NoMemory, Vertex};
use std::alloc::Global;
use std::io;
use task_sets::task_sched::{Pick, TaskSet};

const COUNT: u32 = 6;

const WINDOW: u64 = 4;

/// The tasks, the pending vertices, the oldest first, those that are admitted, those of them that
/// were admitted for an update, and how many updates are outside.
#[derive(Drop)]
struct Plain {
    tasks: Vec<Vertex>,
    pending: Vec<Vertex>,
    admitted: Vec<Vertex>,
    planned: Vec<Vertex>,
    outside: u64,
}

impl Plain {
    fn all(alloc: Global) -> Result<Plain, NoMemory> {
        let mut tasks = Vec::new(alloc);
        for v in 0..COUNT {
            tasks.push(Vertex(v))?;
        }
        Ok(Plain {
            tasks,
            pending: Vec::new(alloc),
            admitted: Vec::new(alloc),
            planned: Vec::new(alloc),
            outside: 0,
        })
    }

    /// Whether this is what may be admitted next.
    fn may_pick(&self, pick: Option<Pick>) -> bool {
        let oldest = self.pending.iter().find(|v| !self.admitted.contains(v));
        let has_room = self.outside.saturating_add(self.planned.len() as u64) < WINDOW;
        let task = self.tasks.iter().any(|v| !self.admitted.contains(v));
        match (oldest, pick) {
            (Some(v), Some(pick)) => pick.snapshot && pick.vertex == *v,
            (Some(_), None) => false,
            (None, Some(pick)) => {
                has_room
                    && !pick.snapshot
                    && self.tasks.contains(&pick.vertex)
                    && !self.admitted.contains(&pick.vertex)
            }
            (None, None) => !(has_room && task),
        }
    }

    fn admit(&mut self, pick: Pick) -> Result<(), NoMemory> {
        self.admitted.push(pick.vertex)?;
        if !pick.snapshot {
            self.planned.push(pick.vertex)?;
        }
        Ok(())
    }

    /// The scope of v ends.
    fn end(&mut self, v: Vertex) {
        self.admitted.retain(|one| *one != v);
        self.planned.retain(|one| *one != v);
    }
}

/// Adds the vertex where it is not there.
fn insert(vertices: &mut Vec<Vertex>, v: Vertex) -> Result<(), NoMemory> {
    if !vertices.contains(&v) {
        vertices.push(v)?;
    }
    Ok(())
}

/// One random call of both, and whether they answered alike.
fn call(set: &mut TaskSet, plain: &mut Plain, chances: &mut Chances) -> Result<bool, NoMemory> {
    let v = Vertex(chances.below(COUNT));
    match chances.below(6) {
        0 => {
            insert(&mut plain.tasks, v)?;
            Ok(wake(set, v, chances.below(9) as u64))
        }
        1 => {
            insert(&mut plain.pending, v)?;
            Ok(pend(set, v))
        }
        2 | 3 => {
            let looked = set.look();
            let pick = set.next();
            let may = plain.may_pick(pick);
            if let Some(pick) = pick {
                plain.admit(pick)?;
            }
            Ok(may && looked == pick)
        }
        4 => Ok(end(set, plain, v)),
        _ => {
            let count = chances.below(3) as u64;
            let may = count <= plain.outside;
            if may {
                plain.outside -= count;
            }
            Ok(acknowledged(set, count) == may && set.outside() == plain.outside)
        }
    }
}

/// What is under way at v is done.
fn end(set: &mut TaskSet, plain: &mut Plain, v: Vertex) -> bool {
    if !plain.admitted.contains(&v) {
        return !set.is_admitted(v);
    }
    plain.end(v);
    if plain.pending.contains(&v) {
        plain.pending.retain(|one| *one != v);
        return marked(set, v);
    }
    plain.tasks.retain(|one| *one != v);
    plain.outside = plain.outside.saturating_add(1);
    ran(set, v)
}

/// Makes 1,000 random calls of both, or those up to the first that they answer otherwise, and tells
/// how many they answer alike.
fn play(set: &mut TaskSet, plain: &mut Plain, seed: u64) -> Result<u32, NoMemory> {
    let mut chances = Chances::new(seed);
    for count in 0..1000 {
        if !call(set, plain, &mut chances)? || !have_alike(set, plain) {
            return Ok(count);
        }
    }
    Ok(1000)
}

/// Whether both have a task or none, and a pending vertex or none.
fn have_alike(set: &TaskSet, plain: &Plain) -> bool {
    set.some_task().is_none() == plain.tasks.is_empty()
        && set.some_pending().is_none() == plain.pending.is_empty()
}

/// Prints how many of 1,000 calls a task set answers as plain lists do, at each of 8 seeds.
pub fn print_random_tasks(rt: &impl Print, alloc: Global) -> io::Result<()> {
    match TaskSet::new(alloc, COUNT, Some(WINDOW as u32)) {
        Ok(mut set) => print_traces(rt, alloc, &mut set),
        Err(fault) => println!(rt; "random tasks: {fault}"),
    }
}

fn print_traces(rt: &impl Print, alloc: Global, set: &mut TaskSet) -> io::Result<()> {
    for seed in 0..8 {
        print_alike(rt, "tasks", seed, play_from_start(set, seed, alloc))?;
        set.reset();
    }
    Ok(())
}

fn play_from_start(set: &mut TaskSet, seed: u64, alloc: Global) -> Result<u32, NoMemory> {
    let mut plain = Plain::all(alloc)?;
    play(set, &mut plain, seed)
}
