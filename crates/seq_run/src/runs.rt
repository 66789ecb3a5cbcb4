//! Runs of updates, one after another.
ghost use Rattle.std.specs.Prelude.{◌≡◌, ℕ, ◌<◌, ◌≤◌, ◌↔◌, ◌==◌, nat_lt, true, false, List, [], ◌∷◌, length, slice_index, IfOk, IfSome, OnOk, OnErr, IsOk, IsErrOf, MatchOption};
ghost use Rattle.std.specs.List.{list_all};
ghost use Rattle.graph_core.specs.DataGraph.{size, IsDataGraph};
ghost use Rattle.seq_run.specs.Inner.TaskQueues.{flag};
ghost use Rattle.seq_run.specs.Orders.{IsValidOrder};
ghost use Rattle.seq_run.specs.Runs.{replayed, tasks_left, with_updates, HasTask, HasNoTask, IsUpdates, WentOn, AreNumbers};
ghost use Rattle.seq_run.specs.States.{start_state};

use crate::faults::{RunFault, StepFault};
use crate::listed_links::list_links;
use crate::steps::update_vertex;
use crate::task_queue::TaskQueue;
use crate::woken_tasks::wake;
use gl_base::{Entry, MachineNo, NoMemory, Vertex};
use graph_core::{Graph, growth};
use std::alloc::Global;
use std::marker::Model;
use update_api::{Link, Program};

/// A run of a program on a graph, whose updates are made one after another. Contracts see the
/// graph, the program and the order of the updates so far; numbers and tasks are what the replay of
/// this order gives.
#[derive(Drop)]
pub struct SeqRun<'a, P: Program> {
    graph: &'a Graph,
    program: P,
    links: Vec<Link>,
    values: Vec<u64>,
    edges: Vec<u64>,
    order: Vec<Entry>,
    tasks: TaskQueue,
}

impl<'a, P: Program> Model for SeqRun<'a, P> {
    ghost use Rattle.seq_run.specs.Runs.{RunView};
    ghost use Rattle.seq_run.specs.Inner.Played.{IsStateAfter};

    ghost Value = { RunView P };

    ghost view = { λ r. record {
      graph = r.graph.now;
      program = r.program;
      order = r.order.items;
    } };

    ghost invariant = { λ r.
        IsStateAfter r.graph.now (P.meaning r.program) r.order.items r.values.items
        r.edges.items r.tasks };
}

/// What a run leaves: the order of its updates, and the numbers of the vertices and of the edges.
#[derive(Drop)]
pub struct Played {
    pub order: Vec<Entry>,
    pub values: Vec<u64>,
    pub edges: Vec<u64>,
}

impl<'a, P: Program> SeqRun<'a, P> {
    /// A run before its first update. Every vertex is a task. They wait in the order of growth from
    /// the vertex with the least start number: most are updated behind a neighbour that has its
    /// last number then, so labels and levels change seldom. Where all start with one number no
    /// neighbour is worth waiting for, and they wait in ascending order.
    pub fn new(alloc: Global, graph: &'a Graph, program: P) -> Result<Self, NoMemory>
        ensures graph { IfOk result (λ run. run.graph ≡ graph.now) }
        ensures program { IfOk result (λ run. run.program ≡ program) }
        ensures order { IfOk result (λ run. run.order ≡ []) }
    {
        let values = start_values(alloc, graph, &program)?;
        let tasks = first_tasks(alloc, graph, &values)?;
        Ok(SeqRun {
            graph,
            program,
            links: Vec::new(alloc),
            values,
            edges: Vec::from_elem(alloc, 0, graph.m() as usize)?,
            order: Vec::new(alloc),
            tasks,
        })
    }

    /// Updates a vertex, which has to be a task; one that is none of the graph's is none. It takes
    /// time for the edges at the vertex, and drops what earlier steps out of turn left at the front
    /// of the queue. After a fault the run is as before.
    pub fn step(&mut self, vertex: Vertex) -> Result<(), StepFault>
        ensures updated { OnOk result (self.new ≡ with_updates self.old (vertex.0 ∷ [])) }
        ensures not_scheduled { IsErrOf result StepFault.NotScheduled ↔
            (tasks_left P.meaning self.old vertex.0 ≡ false) }
        ensures unchanged { OnErr result (self.new ≡ self.old) }
    {
        if !self.is_task(vertex) {
            return Err(StepFault::NotScheduled);
        }
        self.update(vertex)?;
        Ok(())
    }

    /// Updates the tasks in turn, first in, first out, until none is left, but makes no more than
    /// `budget` updates. It is `Spent` where so many were made and a task is left. Want of memory
    /// keeps the updates so far.
    pub fn run(&mut self, budget: u64) -> Result<(), RunFault>
        ensures steps { (steps : ℕ) × (steps ≤ budget) × WentOn self.old self.new steps }
        ensures finished { IsOk result ↔ HasNoTask P.meaning self.new }
        ensures spent { IsErrOf result RunFault.Spent
            ↔ (WentOn self.old self.new budget × HasTask P.meaning self.new) }
    {
        for _made in 0..budget {
            let Some(vertex) = self.waiting() else {
                return Ok(());
            };
            self.update(vertex)?;
        }
        match self.waiting() {
            None => Ok(()),
            Some(_) => Err(RunFault::Spent),
        }
    }

    /// The order of the updates so far. It is valid, and machine 0 made each update, with tickets
    /// from 0 on.
    pub fn order(&self) -> &[Entry]
        ensures order { result.now ≡ self.now.order }
        ensures graph { IsDataGraph self.now.graph }
        ensures valid { IsValidOrder self.now.graph (P.meaning self.now.program) self.now.order }
        ensures updates { IsUpdates self.now.order }
    {
        &self.order
    }

    /// The numbers of the vertices.
    pub fn values(&self) -> &[u64]
        ensures { AreNumbers (size self.now.graph) (replayed P.meaning self.now).vertex result.now }
    {
        &self.values
    }

    /// The numbers of the edges.
    pub fn edges(&self) -> &[u64]
        ensures { AreNumbers (length self.now.graph.edges)
            (replayed P.meaning self.now).edge result.now }
    {
        &self.edges
    }

    /// The task whose turn it is, and `None` where no task is left.
    pub fn waiting(&self) -> Option<Vertex>
        ensures vertex { IfSome result (λ v. v.0 < size self.now.graph) }
        ensures task { MatchOption result (HasNoTask P.meaning self.now)
            (λ v. tasks_left P.meaning self.now v.0 ≡ true) }
    {
        self.tasks.front()
    }

    /// Ends the run, and hands out its order and its numbers.
    pub fn finish(self) -> Played
        ensures order { result.order.items ≡ self.entry.order }
        ensures graph { IsDataGraph self.entry.graph }
        ensures valid { IsValidOrder self.entry.graph
            (P.meaning self.entry.program) self.entry.order }
        ensures updates { IsUpdates self.entry.order }
        ensures values { AreNumbers (size self.entry.graph)
            (replayed P.meaning self.entry).vertex result.values.items }
        ensures edges { AreNumbers (length self.entry.graph.edges)
            (replayed P.meaning self.entry).edge result.edges.items }
    {
        Played {
            order: self.order,
            values: self.values,
            edges: self.edges,
        }
    }

    /// Whether a vertex is a task.
    fn is_task(&self, vertex: Vertex) -> bool
        ensures { result ≡ tasks_left P.meaning self.now vertex.0 }
    {
        self.tasks.contains(vertex)
    }

    /// Updates a task. What may want memory comes first, so that a fault leaves the run as it was.
    fn update(&mut self, vertex: Vertex) -> Result<(), NoMemory>
        requires { tasks_left P.meaning self.old vertex.0 ≡ true }
        ensures updated { OnOk result (self.new ≡ with_updates self.old (vertex.0 ∷ [])) }
        ensures unchanged { OnErr result (self.new ≡ self.old) }
    {
        list_links(&mut self.links, self.graph.halves(vertex))?;
        let ticket = self.order.len() as u64;
        let machine = MachineNo(0);
        self.order.push(Entry::Go {
            ticket,
            machine,
            vertex,
        })?;
        let id = self.graph.id(vertex);
        let place = vertex.0 as usize;
        let links = self.links.as_slice();
        let values = self.values.as_mut_slice();
        let edges = self.edges.as_mut_slice();
        let woken = update_vertex(&self.program, place, id, links, values, edges);
        self.tasks.remove(vertex);
        wake(&mut self.tasks, woken, links);
        Ok(())
    }
}

/// The numbers that the vertices start with.
pub fn start_values<P: Program>(
    alloc: Global,
    graph: &Graph,
    program: &P,
) -> Result<Vec<u64>, NoMemory>
    ensures { IfOk result (λ values.
        AreNumbers (size graph.now)
        (start_state graph.now (P.meaning program.now)).vertex values.items) }
{
    let mut values = Vec::with_capacity(alloc, graph.n() as usize)?;
    for v in 0..graph.n() {
        values.push(program.start(graph.id(Vertex(v))))?;
    }
    Ok(values)
}

/// Every vertex as a task: in the order of growth from the vertex with the least start number, and
/// in ascending order where all have the same.
fn first_tasks(alloc: Global, graph: &Graph, values: &[u64]) -> Result<TaskQueue, NoMemory>
    requires { length values.now ≡ size graph.now }
    ensures count { IfOk result (λ tasks. length tasks ≡ size graph.now) }
    ensures all { IfOk result (λ tasks. (u : ℕ) → flag tasks u ≡ nat_lt u (size graph.now)) }
{
    if is_one_number(values) {
        return TaskQueue::ascending(alloc, graph.n());
    }
    let first = least_start(values, graph.n());
    let vertices = growth(alloc, graph, first)?;
    TaskQueue::listed(alloc, &vertices)
}

/// Whether all numbers of the list are the first one.
fn is_one_number(values: &[u64]) -> bool
    ensures { result ≡ list_all (λ x. x == slice_index values.now 0) values.now }
{
    for value in values {
        if *value != values[0] {
            return false;
        }
    }
    true
}

/// The first of the vertices with the least number, and vertex 0 where there is none.
pub fn least_start(values: &[u64], count: u32) -> Vertex
    requires { length values.now ≡ count }
    ensures inside { 0 < count → result.0 < count }
    ensures least { (v : ℕ) → v < count →
        slice_index values.now result.0 ≤ slice_index values.now v }
    ensures first { (v : ℕ) → v < result.0 →
        slice_index values.now result.0 < slice_index values.now v }
{
    let mut least = 0;
    for v in 0..count {
        if values[v as usize] < values[least as usize] {
            least = v;
        }
    }
    Vertex(least)
}
