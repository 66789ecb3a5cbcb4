//! The tasks of a run, first in, first out.
ghost use Rattle.std.specs.Prelude.{◌≡◌, ℕ, ◌<◌, true, false, length, map, slice_set, nat_lt, IfOk, MatchOption};
ghost use Rattle.std.specs.VecDeque.{deque_capacity};
ghost use Rattle.graph_core.specs.Growth.{numbers_of, ListsEach};
ghost use Rattle.seq_run.specs.Inner.TaskQueues.{flag, is_task, is_queued, IsQueueOf, IsTaskFirst};

use gl_base::{NoMemory, Vertex};
use std::alloc::Global;
use std::collections::VecDeque;
use std::marker::Model;

/// Which vertices are tasks, with room for all of them, so that no later call takes memory. A
/// vertex that is no task any more may stay in the queue until it comes to the front, and keeps its
/// place if it becomes one again. Contracts see a flag for each vertex.
#[derive(Drop)]
pub struct TaskQueue {
    standings: Vec<Standing>,
    queue: VecDeque<Vertex>,
}

/// How a vertex stands to the queue.
#[derive(Clone, Copy)]
enum Standing {
    /// It is no task, and is not in the queue.
    Outside,
    /// It is no task any more, and is still in the queue.
    Done,
    /// It is a task, and is in the queue.
    Waiting,
}

impl Model for TaskQueue {
    ghost use Rattle.std.specs.Prelude.{List, Bool, map};
    ghost use Rattle.seq_run.specs.Inner.TaskQueues.{is_task, is_queued, IsTaskQueue};

    ghost Value = { List Bool };

    ghost view = { λ q. map is_task q.standings.items };

    ghost invariant = { λ q.
        IsTaskQueue (map is_task q.standings.items) (map is_queued q.standings.items)
        q.queue.items q.queue.cap };
}

impl TaskQueue {
    /// A queue in which every vertex below `count` is a task. They wait in ascending order.
    pub fn ascending(alloc: Global, count: u32) -> Result<TaskQueue, NoMemory>
        ensures count { IfOk result (λ tasks. length tasks ≡ count) }
        ensures all { IfOk result (λ tasks. (u : ℕ) → flag tasks u ≡ nat_lt u count) }
    {
        let mut tasks = TaskQueue::none(alloc, count as usize)?;
        for v in 0..count {
            tasks.add(Vertex(v));
        }
        Ok(tasks)
    }

    /// A queue in which every vertex of a graph is a task. They wait as they stand in the list,
    /// which has each once.
    pub fn listed(alloc: Global, vertices: &[Vertex]) -> Result<TaskQueue, NoMemory>
        requires { ListsEach (length vertices.now) (numbers_of vertices.now) }
        ensures count { IfOk result (λ tasks. length tasks ≡ length vertices.now) }
        ensures all { IfOk result (λ tasks. (u : ℕ) →
            flag tasks u ≡ nat_lt u (length vertices.now)) }
    {
        let mut tasks = TaskQueue::none(alloc, vertices.len())?;
        for vertex in vertices {
            tasks.add(*vertex);
        }
        Ok(tasks)
    }

    /// A queue for so many vertices, of which none is a task.
    fn none(alloc: Global, count: usize) -> Result<TaskQueue, NoMemory>
        ensures count { IfOk result (λ tasks. length tasks ≡ count) }
        ensures none { IfOk result (λ tasks. (u : ℕ) → flag tasks u ≡ false) }
    {
        Ok(TaskQueue {
            standings: Vec::from_elem(alloc, Standing::Outside, count)?,
            queue: VecDeque::with_capacity(alloc, count)?,
        })
    }

    /// Whether the vertex is a task. One that is none of the graph's is not.
    pub fn contains(&self, vertex: Vertex) -> bool
        ensures { result ≡ flag self.now vertex.0 }
    {
        match self.standings.get(vertex.0 as usize) {
            Some(standing) => standing.is_task(),
            None => false,
        }
    }

    /// The first task of the queue, and `None` where there is no task.
    pub fn front(&self) -> Option<Vertex>
        ensures { MatchOption result ((u : ℕ) →
            flag self.now u ≡ false) (λ v. flag self.now v.0 ≡ true) }
    {
        self.queue.front().copied()
    }

    /// Makes the vertex a task.
    pub fn add(&mut self, vertex: Vertex)
        requires { vertex.0 < length self.old }
        ensures { self.new ≡ slice_set self.old vertex.0 true }
    {
        let place = vertex.0 as usize;
        let queued = self.standings[place].is_queued();
        self.standings[place] = Standing::Waiting;
        if !queued {
            self.queue.push_back_reserved(vertex);
        }
    }

    /// Makes the vertex no task any more.
    pub fn remove(&mut self, vertex: Vertex)
        requires { vertex.0 < length self.old }
        ensures { self.new ≡ slice_set self.old vertex.0 false }
    {
        let place = vertex.0 as usize;
        self.standings[place] = self.standings[place].done();
        drop_done(&mut self.standings, &mut self.queue);
    }
}

impl Standing {
    fn is_task(self) -> bool
        ensures { result ≡ is_task self }
    {
        matches!(self, Standing::Waiting)
    }

    fn is_queued(self) -> bool
        ensures { result ≡ is_queued self }
    {
        !matches!(self, Standing::Outside)
    }

    /// How a vertex stands once it is no task any more.
    fn done(self) -> Standing
        ensures task { is_task result ≡ false }
        ensures queued { is_queued result ≡ is_queued self }
    {
        match self {
            Standing::Outside => Standing::Outside,
            Standing::Done | Standing::Waiting => Standing::Done,
        }
    }
}

/// Takes vertices that are no tasks any more off the front of the queue.
fn drop_done(standings: &mut [Standing], queue: &mut VecDeque<Vertex>)
    requires { IsQueueOf (map is_task standings.old) (map is_queued standings.old) queue.old.items }
    ensures tasks { map is_task standings.new ≡ map is_task standings.old }
    ensures queue { IsQueueOf (map is_task standings.new)
        (map is_queued standings.new) queue.new.items }
    ensures first { IsTaskFirst (map is_task standings.new) queue.new.items }
    ensures room { deque_capacity queue.new ≡ deque_capacity queue.old }
{
    while let Some(first) = queue.front() {
        let place = first.0 as usize;
        if standings[place].is_task() {
            return;
        }
        standings[place] = Standing::Outside;
        queue.pop_front();
    }
}
