//! Whole runs of pairs, on one machine or several. Each is judged by the replay of its order, and by
//! what passed its gate.
ghost use Rattle.std.specs.Prelude.{◌≡◌, ◌<◌, true, All, IfSome};
ghost use Rattle.graph_core.specs.DataGraph.{size};

use crate::graphs::graph_of;
use crate::matched::print_number;
use full_cluster::{Division, FullTerms, update_at};
use full_runs::{FullEnd, counts_by_machine, run_full};
use gl_base::{Entry, INF, MachineNo, NoMemory, Vertex};
use gl_outside::{Gate, OpenGate};
use graph_core::{Graph, GraphFault};
use prog_match::Pairs;
use std::alloc::{AllocError, Global};
use std::cell::Cell;
use std::io;
use std::sync::Wait;

/// As many vertices as each graph has whose runs are judged.
const COUNT: u64 = 20;

/// Between which vertices a graph has edges.
#[derive(Clone, Copy)]
enum Shape {
    /// From each vertex to the next one, and from the last to the first.
    Ring,
    /// From the first vertex to all others.
    Star,
    /// Along rows and columns, in rows of five.
    Grid,
    /// Between all vertices.
    Whole,
}

static SHAPES: [(&str, Shape); 4] = [
    ("ring", Shape::Ring),
    ("star", Shape::Star),
    ("grid", Shape::Grid),
    ("whole graph", Shape::Whole),
];

/// Machines, how many scopes of each may be in flight, and how many updates may be made.
const TERMS: [(u16, u64, u64); 6] = [
    (1, 1, 20),
    (2, 1, 20),
    (4, 3, 20),
    (16, 1, 20),
    (16, 4, 1000),
    (4, 1, 19),
];

/// Prints what runs leave of two edges and a vertex apart, and how runs of larger graphs are judged.
pub fn print_paired<R: Print + Wait>(rt: &R, alloc: Global) -> io::Result<()> {
    match graph_of(alloc, &[1, 2, 3, 4, 5], &[(1, 2), (3, 4)], false) {
        Ok(apart) => print_apart(rt, alloc, &apart)?,
        Err(fault) => println!(rt; "two edges: {fault}")?,
    }
    for (name, shape) in &SHAPES {
        match drawn(alloc, *shape) {
            Ok(graph) => print_judged(rt, alloc, name, &graph)?,
            Err(fault) => println!(rt; "{name}: {fault}")?,
        }
    }
    Ok(())
}

/// Prints what is left of a run with an update for each vertex, and of one with one less.
fn print_apart<R: Print + Wait>(rt: &R, alloc: Global, apart: &Graph) -> io::Result<()> {
    let (low, high) = (MachineNo(0), MachineNo(1));
    let owner = [low, low, low, high, high];
    let Some(division) = Division::new(apart, &owner) else {
        return println!(rt; "two edges: not five vertices");
    };
    for budget in [5, 4] {
        print_run(rt, alloc, &division, budget)?;
    }
    Ok(())
}

fn print_run<R: Print + Wait>(
    rt: &R,
    alloc: Global,
    division: &Division<'_>,
    budget: u64,
) -> io::Result<()> {
    let terms = FullTerms {
        machines: 2,
        pipeline: 1,
    };
    let Ok(end) = run(rt, alloc, division, terms, &OpenGate, budget) else {
        return println!(rt; "two edges, budget {budget}: no memory");
    };
    print!(rt; "two edges, budget {budget}:")?;
    for number in &end.values {
        print_number(rt, *number)?;
    }
    print!(rt; ", edges {:?}, order", end.edges)?;
    for entry in &end.order {
        print_entry(rt, *entry)?;
    }
    print!(rt; ", ")?;
    if end.left.is_some() {
        return println!(rt; "one left, {} updates", end.order.len());
    }
    match counts_by_machine(alloc, 2, &end.order) {
        Ok(done) => println!(rt; "none left, updates {done:?}"),
        Err(fault) => println!(rt; "none left, updates: {fault}"),
    }
}

/// Prints the vertex of an update, counted from 1.
fn print_entry<R: Print>(rt: &R, entry: Entry) -> io::Result<()> {
    match entry {
        Entry::Go { vertex, .. } => print!(rt; " {}", vertex.0 as u64 + 1),
        Entry::Restart { .. } => Ok(()),
    }
}

/// The run, where its machines own all vertices.
fn run<R: Wait, G: Gate>(
    rt: &R,
    alloc: Global,
    division: &Division<'_>,
    terms: FullTerms,
    gate: &G,
    budget: u64,
) -> Result<FullEnd, NoMemory> {
    if !are_below(division.owner, terms.machines) {
        return Err(NoMemory);
    }
    run_full(rt, alloc, division, terms, &Pairs, gate, budget)
}

/// Whether all owners are among so many machines.
pub fn are_below(owner: &[MachineNo], machines: u16) -> bool
    ensures { result ≡ true → All (λ m. m.0 < machines) owner.now }
{
    owner.iter().all(|m| m.0 < machines)
}

/// The graph of this shape.
fn drawn(alloc: Global, shape: Shape) -> Result<Graph, GraphFault> {
    let (ids, edges) = lists_of(alloc, shape)?;
    graph_of(alloc, &ids, &edges, false)
}

/// The identifiers and edges of this shape.
fn lists_of(alloc: Global, shape: Shape) -> Result<(Vec<u64>, Vec<(u64, u64)>), AllocError> {
    let mut ids = Vec::new(alloc);
    let mut edges = Vec::new(alloc);
    for id in 1..=COUNT {
        ids.push(id)?;
        add_edges(&mut edges, shape, id)?;
    }
    Ok((ids, edges))
}

/// Adds the edges from a vertex to those before it.
fn add_edges(edges: &mut Vec<(u64, u64)>, shape: Shape, id: u64) -> Result<(), AllocError> {
    for before in 1..id {
        if is_edge(shape, before, id) {
            edges.push((before, id))?;
        }
    }
    Ok(())
}

/// Whether there is an edge from a vertex to one with a higher identifier.
fn is_edge(shape: Shape, from: u64, to: u64) -> bool {
    let apart = to.abs_diff(from);
    match shape {
        Shape::Ring => apart == 1 || (from == 1 && to == COUNT),
        Shape::Star => from == 1,
        Shape::Grid => apart == 5 || (apart == 1 && from % 5 != 0),
        Shape::Whole => true,
    }
}

fn print_judged<R: Print + Wait>(
    rt: &R,
    alloc: Global,
    name: &str,
    graph: &Graph,
) -> io::Result<()> {
    for (machines, pipeline, budget) in TERMS {
        let terms = FullTerms { machines, pipeline };
        print!(rt; "{name}, machines {machines}, pipeline {pipeline}: ")?;
        match judged(rt, alloc, graph, terms, budget) {
            Ok(seen) => print_seen(rt, &seen)?,
            Err(fault) => println!(rt; "{fault}")?,
        }
    }
    Ok(())
}

/// What is seen of a run: how many updates it made, whether its numbers are the replay of its order,
/// whether the vertices of its order passed the gate in turn, and whether a task is left.
#[derive(Drop)]
struct Seen {
    updates: usize,
    is_replayed: bool,
    has_passed: bool,
    is_left: bool,
}

fn print_seen(rt: &impl Print, seen: &Seen) -> io::Result<()> {
    print!(rt;
        "{} updates, as replayed {}",
        seen.updates, seen.is_replayed
    )?;
    println!(rt;
        ", as passed {}, one left {}",
        seen.has_passed, seen.is_left
    )
}

/// What is seen of a run of pairs on a graph whose vertices the machines own in turn.
fn judged<R: Wait>(
    rt: &R,
    alloc: Global,
    graph: &Graph,
    terms: FullTerms,
    budget: u64,
) -> Result<Seen, NoMemory> {
    let owner = owners_in_turn(alloc, graph, terms.machines)?;
    let Some(division) = Division::new(graph, &owner) else {
        return Err(NoMemory);
    };
    let gate = Passed::none();
    let end = run(rt, alloc, &division, terms, &gate, budget)?;
    Ok(Seen {
        updates: end.order.len(),
        is_replayed: is_replayed(alloc, &division, &end)?,
        has_passed: gate.mark.get() == mark_of(graph, &end.order),
        is_left: end.left.is_some(),
    })
}

/// The owners of vertices that go to so many machines in turn.
fn owners_in_turn(alloc: Global, graph: &Graph, machines: u16) -> Result<Vec<MachineNo>, NoMemory> {
    let many = u32::from(machines.max(1));
    let mut owner = Vec::new(alloc);
    for v in 0..graph.n() {
        owner.push(MachineNo((v % many) as u16))?;
    }
    Ok(owner)
}

/// Whether the updates of the order, one after another, leave the numbers that the run left.
fn is_replayed(alloc: Global, division: &Division<'_>, end: &FullEnd) -> Result<bool, NoMemory> {
    let mut numbers = Vec::from_elem(alloc, INF, division.graph.n() as usize)?;
    let mut edges = Vec::from_elem(alloc, 0, division.graph.m() as usize)?;
    for entry in &end.order {
        replay(alloc, division, entry, &mut numbers, &mut edges)?;
    }
    Ok(numbers == end.values && edges == end.edges)
}

/// The update of an entry, on the numbers of all vertices and edges.
fn replay(
    alloc: Global,
    division: &Division<'_>,
    entry: &Entry,
    numbers: &mut [u64],
    edges: &mut [u64],
) -> Result<(), NoMemory> {
    let graph = division.graph;
    if numbers.len() != graph.n() as usize || edges.len() != graph.m() as usize {
        return Err(NoMemory);
    }
    match vertex_of(graph, entry) {
        Some(v) => {
            update_at(alloc, division, &Pairs, v, numbers, edges)?;
            Ok(())
        }
        None => Err(NoMemory),
    }
}

/// The vertex that the entry updates, if it is one of the graph.
fn vertex_of(graph: &Graph, entry: &Entry) -> Option<Vertex>
    ensures { IfSome result (λ v. v.0 < size graph.now) }
{
    match entry {
        Entry::Go { vertex, .. } if vertex.0 < graph.n() => Some(*vertex),
        _ => None,
    }
}

/// A gate that marks which vertices passed it, in which order.
#[derive(Drop)]
struct Passed {
    mark: Cell<u64>,
}

impl Passed {
    fn none() -> Passed {
        Passed { mark: Cell::new(0) }
    }
}

impl Gate for Passed {
    fn pass(&self, id: u64) {
        let mark = self.mark.get().wrapping_mul(31).wrapping_add(id);
        self.mark.set(mark);
    }
}

/// The mark of the vertices of an order.
fn mark_of(graph: &Graph, order: &[Entry]) -> u64 {
    let gate = Passed::none();
    for entry in order {
        if let Some(v) = vertex_of(graph, entry) {
            gate.pass(graph.id(v));
        }
    }
    gate.mark.get()
}
