//! The replay of an order on the undivided graph.
ghost use Rattle.cluster_scenarios.specs.Replays.{starting_with};

use crate::trouble::Trouble;
use gl_base::{Base, EdgeNo, Entry, Vertex};
use graph_core::Graph;
use seq_run::{Played, SeqRun, StepFault};
use std::alloc::Global;
use update_api::{Program, Scope, Woken};

/// The identifiers below this one have their numbers in a list.
const LISTED: usize = 64;

/// A program that starts each vertex of a low identifier with the number that a list has there.
#[derive(Clone, Copy)]
struct StartingWith<P: Program> {
    program: P,
    numbers: [u64; LISTED],
}

impl<P: Program> Program for StartingWith<P> {
    ghost meaning = { λ p. starting_with p.numbers (P.meaning p.program) };

    fn start(&self, id: u64) -> u64 {
        if id < 64 {
            self.numbers[id as usize]
        } else {
            self.program.start(id)
        }
    }

    fn update(&self, scope: &mut Scope<'_>) -> Woken {
        self.program.update(scope)
    }
}

/// A number for each vertex and each edge.
#[derive(Drop)]
pub struct Numbers {
    pub values: Vec<u64>,
    pub edges: Vec<u64>,
}

impl Numbers {
    /// Returns the numbers of a base.
    pub fn of(alloc: Global, base: &Base) -> Result<Numbers, Trouble> {
        Numbers::alike(alloc, &base.values, &base.edges)
    }

    /// Returns these numbers of the vertices and the edges.
    fn alike(alloc: Global, values: &[u64], edges: &[u64]) -> Result<Numbers, Trouble> {
        Ok(Numbers {
            values: Vec::from_slice(alloc, values)?,
            edges: Vec::from_slice(alloc, edges)?,
        })
    }
}

/// Returns the numbers to which an order leads from these on. At first and behind each restart
/// every vertex is a task.
pub fn replay<P: Program>(
    alloc: Global,
    graph: &Graph,
    program: P,
    first: &Numbers,
    order: &[Entry],
) -> Result<Numbers, Trouble> {
    let mut numbers = Numbers::alike(alloc, &first.values, &first.edges)?;
    let outcome = replay_parts(alloc, graph, program, order, &mut numbers);
    if let Err(trouble) = outcome {
        drop(numbers);
        return Err(trouble);
    }
    Ok(numbers)
}

/// Replays the parts of an order between its restarts in turn.
fn replay_parts<P: Program>(
    alloc: Global,
    graph: &Graph,
    program: P,
    order: &[Entry],
    numbers: &mut Numbers,
) -> Result<(), Trouble> {
    let mut start = 0;
    for (place, entry) in order.iter().enumerate() {
        if let Entry::Restart { .. } = entry {
            let part = order.get(start..place).unwrap_or(&[]);
            replay_part(alloc, graph, program, part, numbers)?;
            start = place.saturating_add(1);
        }
    }
    let part = order.get(start..).unwrap_or(&[]);
    replay_part(alloc, graph, program, part, numbers)
}

/// Replays updates without a restart among them.
fn replay_part<P: Program>(
    alloc: Global,
    graph: &Graph,
    program: P,
    part: &[Entry],
    numbers: &mut Numbers,
) -> Result<(), Trouble> {
    let program = started_by(graph, program, &numbers.values)?;
    let mut run = SeqRun::new(alloc, graph, program)?;
    if let Err(trouble) = make_updates(&mut run, part) {
        drop(run);
        return Err(trouble);
    }
    let Played { values, edges, .. } = run.finish();
    keep_edges(graph, part, &edges, numbers);
    numbers.values = values;
    Ok(())
}

/// Returns the program, which starts with these numbers.
fn started_by<P: Program>(
    graph: &Graph,
    program: P,
    values: &[u64],
) -> Result<StartingWith<P>, Trouble> {
    let mut numbers = [0u64; LISTED];
    for v in 0..graph.n() {
        let id = graph.id(Vertex(v));
        let number = values.get(v as usize).copied();
        if id >= 64 {
            return Err(Trouble::Because("an identifier is too great for a replay"));
        }
        numbers[id as usize] = number.unwrap_or(0);
    }
    Ok(StartingWith { program, numbers })
}

/// Makes the updates, whose tickets ascend.
fn make_updates<P: Program>(run: &mut SeqRun<'_, P>, part: &[Entry]) -> Result<(), Trouble> {
    let mut least = 0;
    for entry in part {
        least = step(run, *entry, least)?;
    }
    Ok(())
}

/// Makes one update more, whose ticket is no less than this. Returns the least that the next may
/// have.
fn step<P: Program>(run: &mut SeqRun<'_, P>, entry: Entry, least: u64) -> Result<u64, Trouble> {
    match entry {
        Entry::Go { vertex, ticket, .. } if ticket >= least => match run.step(vertex) {
            Ok(()) => Ok(ticket.saturating_add(1)),
            Err(StepFault::NotScheduled) => Err(Trouble::Because("an update is of no task")),
            Err(StepFault::NoMemory) => Err(Trouble::Because("memory is missing")),
        },
        _ => Err(Trouble::Because("an entry is out of its turn")),
    }
}

/// Takes over the numbers of the edges at vertices that were updated.
fn keep_edges(graph: &Graph, part: &[Entry], played: &[u64], numbers: &mut Numbers) {
    for e in 0..graph.m() {
        let (one, other) = graph.ends(EdgeNo(e));
        if !is_updated(part, one) && !is_updated(part, other) {
            continue;
        }
        if let (Some(number), Some(new)) = (
            numbers.edges.get_mut(e as usize),
            played.get(e as usize),
        ) {
            *number = *new;
        }
    }
}

/// Returns whether the vertex was updated.
fn is_updated(part: &[Entry], v: Vertex) -> bool {
    for entry in part {
        if let Entry::Go { vertex, .. } = entry {
            if *vertex == v {
                return true;
            }
        }
    }
    false
}
