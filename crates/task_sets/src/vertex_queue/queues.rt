//! A set of vertices, first in, first out.
ghost use Rattle.std.specs.Prelude.{◌≡◌, ℕ, ◌<◌, true, false, length, map, slice_set, nat_lt, IfOk, MatchOption};
ghost use Rattle.std.specs.VecDeque.{deque_capacity};
ghost use Rattle.task_sets.specs.vertex_queue.Flags.{is_flagged};
ghost use Rattle.task_sets.specs.vertex_queue.Inner.Queues.{is_member, stands_in, KeepsQueue, IsMemberFirst};

use gl_base::{NoMemory, Vertex};
use std::alloc::Global;
use std::collections::VecDeque;
use std::marker::Model;

/// A set of vertices, which come first in, first out. It has room for all of them, so that no later
/// call takes memory. One that is a member no more may stay in the queue until it comes to the
/// front, and keeps its place if it becomes a member again. Contracts see a flag for each vertex.
#[derive(Drop)]
pub struct VertexQueue {
    standings: Vec<Standing>,
    queue: VecDeque<Vertex>,
}

/// How a vertex stands to the queue.
#[derive(Clone, Copy)]
enum Standing {
    /// It is no member, and is not in the queue.
    Outside,
    /// It is no member any more, and is still in the queue.
    Done,
    /// It is a member, and is in the queue.
    Waiting,
}

impl Model for VertexQueue {
    ghost use Rattle.std.specs.Prelude.{List, Bool, map};
    ghost use Rattle.task_sets.specs.vertex_queue.Inner.Queues.{is_member, stands_in, IsVertexQueue};

    ghost Value = { List Bool };

    ghost view = { λ q. map is_member q.standings.items };

    ghost invariant = { λ q.
        IsVertexQueue (map is_member q.standings.items) (map stands_in q.standings.items)
        q.queue.items q.queue.cap };
}

impl VertexQueue {
    /// A queue for the vertices below `count`, of which none is a member.
    pub fn none(alloc: Global, count: u32) -> Result<VertexQueue, NoMemory>
        ensures count { IfOk result (λ members. length members ≡ count) }
        ensures none { IfOk result (λ members. (u : ℕ) → is_flagged members u ≡ false) }
    {
        let count = count as usize;
        Ok(VertexQueue {
            standings: Vec::from_elem(alloc, Standing::Outside, count)?,
            queue: VecDeque::with_capacity(alloc, count)?,
        })
    }

    /// Makes each vertex a member. Those that are none yet wait behind the others, ascending.
    /// `count` is that of `none`.
    pub fn add_all(&mut self, count: u32)
        requires { count ≡ length self.old }
        ensures count { length self.new ≡ length self.old }
        ensures all { (u : ℕ) → is_flagged self.new u ≡ nat_lt u (length self.old) }
    {
        for v in 0..count {
            self.add(Vertex(v));
        }
    }

    /// Makes no vertex a member. `count` is that of `none`.
    pub fn clear(&mut self, count: u32)
        requires { count ≡ length self.old }
        ensures count { length self.new ≡ length self.old }
        ensures none { (u : ℕ) → is_flagged self.new u ≡ false }
    {
        for v in 0..count {
            self.remove(Vertex(v));
        }
    }

    /// Whether the vertex is a member. One that is not below the count is none.
    pub fn contains(&self, vertex: Vertex) -> bool
        ensures { result ≡ is_flagged self.now vertex.0 }
    {
        match self.standings.get(vertex.0 as usize) {
            Some(standing) => standing.is_member(),
            None => false,
        }
    }

    /// The first member, and `None` where there is none.
    pub fn front(&self) -> Option<Vertex>
        ensures { MatchOption result ((u : ℕ) →
            is_flagged self.now u ≡ false) (λ v. is_flagged self.now v.0 ≡ true) }
    {
        self.queue.front().copied()
    }

    /// How many vertices stand in the queue. Some may be members no more.
    pub fn queued(&self) -> usize {
        self.queue.len()
    }

    /// How the numbers of the members lie.
    pub fn spread(&self, numbers: &[u64]) -> Spread {
        let mut least = u64::MAX;
        let mut greatest = 0;
        let mut mean = Mean { sum: 0, count: 0 };
        for vertex in self.queue.iter() {
            if let Some(number) = self.number_of(*vertex, numbers) {
                least = least.min(number);
                greatest = greatest.max(number);
                mean = mean.with(number);
            }
        }
        let between = least.saturating_add(greatest.saturating_sub(least) / 2);
        Spread {
            least,
            middle: mean.value().max(between),
        }
    }

    /// The number of a member; `None` where the vertex is none, or has no number.
    fn number_of(&self, vertex: Vertex, numbers: &[u64]) -> Option<u64> {
        if self.contains(vertex) {
            numbers.get(vertex.0 as usize).copied()
        } else {
            None
        }
    }

    /// Makes the vertex a member, behind the others.
    pub fn add(&mut self, vertex: Vertex)
        requires { vertex.0 < length self.old }
        ensures { self.new ≡ slice_set self.old vertex.0 true }
    {
        let place = vertex.0 as usize;
        let queued = self.standings[place].stands_in();
        self.standings[place] = Standing::Waiting;
        if !queued {
            self.queue.push_back_reserved(vertex);
        }
    }

    /// Makes the vertex no member any more.
    pub fn remove(&mut self, vertex: Vertex)
        requires { vertex.0 < length self.old }
        ensures { self.new ≡ slice_set self.old vertex.0 false }
    {
        let place = vertex.0 as usize;
        if !self.standings[place].is_member() {
            return;
        }
        self.standings[place] = self.standings[place].done();
        drop_done(&mut self.standings, &mut self.queue);
    }
}

/// How some numbers lie.
#[derive(Clone, Copy)]
pub struct Spread {
    /// The least of them.
    pub least: u64,
    /// The greater of their mean and of the middle between the least and the greatest: some are up
    /// to it, and the greatest is above it, where they differ.
    pub middle: u64,
}

/// The sum of some numbers, and how many they are.
#[derive(Clone, Copy)]
struct Mean {
    sum: u64,
    count: u64,
}

impl Mean {
    fn with(self, number: u64) -> Mean {
        Mean {
            sum: self.sum.saturating_add(number),
            count: self.count.saturating_add(1),
        }
    }

    fn value(self) -> u64 {
        self.sum.checked_div(self.count).unwrap_or(0)
    }
}

impl Standing {
    fn is_member(self) -> bool
        ensures { result ≡ is_member self }
    {
        matches!(self, Standing::Waiting)
    }

    fn stands_in(self) -> bool
        ensures { result ≡ stands_in self }
    {
        !matches!(self, Standing::Outside)
    }

    /// How a vertex stands once it is no member any more.
    fn done(self) -> Standing
        ensures member { is_member result ≡ false }
        ensures queued { stands_in result ≡ stands_in self }
    {
        match self {
            Standing::Outside => Standing::Outside,
            Standing::Done | Standing::Waiting => Standing::Done,
        }
    }
}

/// Takes vertices that are no members any more off the front of the queue.
fn drop_done(standings: &mut [Standing], queue: &mut VecDeque<Vertex>)
    requires { KeepsQueue (map is_member standings.old)
        (map stands_in standings.old) queue.old.items }
    ensures members { map is_member standings.new ≡ map is_member standings.old }
    ensures queue { KeepsQueue (map is_member standings.new)
        (map stands_in standings.new) queue.new.items }
    ensures first { IsMemberFirst (map is_member standings.new) queue.new.items }
    ensures room { deque_capacity queue.new ≡ deque_capacity queue.old }
{
    while let Some(first) = queue.front() {
        let place = first.0 as usize;
        if standings[place].is_member() {
            return;
        }
        standings[place] = Standing::Outside;
        queue.pop_front();
    }
}
