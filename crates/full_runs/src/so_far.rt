//! A run of one update after another.
ghost use Rattle.std.specs.Prelude.{◌≡◌, ℕ, ◌+◌, ◌<◌, ◌≤◌, true, [], length, All, IfOk, OnOk};
ghost use Rattle.graph_core.specs.DataGraph.{size, IsDataGraph};
ghost use Rattle.task_sets.specs.vertex_queue.Flags.{is_flagged};
ghost use Rattle.full_cluster.specs.Owners.{owner_in};
ghost use Rattle.full_runs.specs.FullEnds.{RunsFullyTo};
ghost use Rattle.full_runs.specs.Inner.SoFar.{AreSoFar};

use crate::FullEnd;
use crate::tasks::retask;
use full_cluster::{Division, start_values, update_at};
use full_scope::FullProgram;
use gl_base::{Entry, NoMemory, Vertex};
use gl_outside::Gate;
use graph_core::Graph;
use std::alloc::Global;
use task_sets::vertex_queue::VertexQueue;

/// A run so far: the order of its updates, what this makes of the numbers, and the tasks that it
/// leaves.
#[derive(Drop)]
pub(crate) struct SoFar {
    pub order: Vec<Entry>,
    pub values: Vec<u64>,
    pub edges: Vec<u64>,
    pub tasks: VertexQueue,
}

impl SoFar {
    /// A run before its first update: every vertex is a task.
    pub(crate) fn new<P: FullProgram>(
        alloc: Global,
        graph: &Graph,
        program: &P,
    ) -> Result<SoFar, NoMemory>
        ensures so_far { (owner : ℕ → ℕ) → IfOk result (λ run.
            AreSoFar graph.now (P.meaning program.now) owner
            run.order.items run.values.items run.edges.items run.tasks) }
        ensures none { IfOk result (λ run. run.order.items ≡ []) }
    {
        let values = start_values(alloc, graph, program)?;
        let mut tasks = VertexQueue::none(alloc, graph.n())?;
        tasks.add_all(graph.n());
        Ok(SoFar {
            order: Vec::new(alloc),
            values,
            edges: Vec::from_elem(alloc, 0, graph.m() as usize)?,
            tasks,
        })
    }

    /// Makes one update after another until no task is left, or the budget is spent: the updates so
    /// far are those of its first part. Vertices wait in the order of their numbers, first in, first
    /// out, and the order tells that its owner updates each vertex.
    pub(crate) fn finish<P: FullProgram, G: Gate>(
        self,
        alloc: Global,
        division: &Division<'_>,
        program: &P,
        gate: &G,
        budget: u64,
    ) -> Result<FullEnd, NoMemory>
        requires so_far { AreSoFar division.now.graph.now
            (P.meaning program.now) (owner_in division.now.owner.now)
            self.order.items self.values.items self.edges.items self.tasks }
        requires few { length self.order.items ≤ budget }
        ensures { IfOk result (λ end.
            RunsFullyTo division.now.graph.now (P.meaning program.now)
            (owner_in division.now.owner.now) budget
            end.order.items end.values.items end.edges.items end.left) }
    {
        let mut run = self;
        let first = run.order.len() as u64;
        for _made in first..budget {
            let Some(vertex) = run.tasks.front() else {
                return Ok(run.ended(None));
            };
            pass(gate, division.graph, vertex);
            run.update(alloc, division, program, vertex)?;
        }
        let left = run.tasks.front();
        Ok(run.ended(left))
    }

    /// Makes the update of a task, by the owner of the vertex.
    fn update<P: FullProgram>(
        &mut self,
        alloc: Global,
        division: &Division<'_>,
        program: &P,
        v: Vertex,
    ) -> Result<(), NoMemory>
        requires count { length self.old.values.items ≡ size division.now.graph.now }
        requires edge_count { length self.old.edges.items
            ≡ length division.now.graph.now.edges }
        requires task_count { length self.old.tasks ≡ size division.now.graph.now }
        requires task { is_flagged self.old.tasks v.0 ≡ true }
        ensures so_far { let owner = owner_in division.now.owner.now in
            let p = P.meaning program.now in let g = division.now.graph.now in
            AreSoFar g p owner
            self.old.order.items self.old.values.items self.old.edges.items self.old.tasks →
            OnOk result (AreSoFar g p owner
            self.new.order.items self.new.values.items self.new.edges.items self.new.tasks) }
        ensures longer { OnOk result
            (length self.new.order.items ≡ length self.old.order.items + 1) }
    {
        let machine = division.owner_of(v);
        let woken = update_at(
            alloc,
            division,
            program,
            v,
            &mut self.values,
            &mut self.edges,
        )?;
        retask(&mut self.tasks, v, woken, division.graph.halves(v));
        let ticket = self.order.len() as u64;
        self.order.push(Entry::Go {
            ticket,
            machine,
            vertex: v,
        })?;
        Ok(())
    }

    /// What the run leaves, where this task is left.
    fn ended(self, left: Option<Vertex>) -> FullEnd
        ensures order { result.order ≡ self.order }
        ensures values { result.values ≡ self.values }
        ensures edges { result.edges ≡ self.edges }
        ensures left { result.left ≡ left }
    {
        FullEnd {
            order: self.order,
            values: self.values,
            edges: self.edges,
            left,
        }
    }
}

/// The update of a vertex of the graph begins.
pub(crate) fn pass<G: Gate>(gate: &G, graph: &Graph, v: Vertex) {
    if v.0 < graph.n() {
        gate.pass(graph.id(v));
    }
}
