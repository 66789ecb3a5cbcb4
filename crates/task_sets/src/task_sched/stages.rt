//! Tasks that wait, in stages.
ghost use Rattle.std.specs.Prelude.{◌≡◌, ℕ, ◌<◌, ◌==◌, true, false, length, nat_lt, if◌then◌else◌, IfOk, MatchOption};
ghost use Rattle.task_sets.specs.task_sched.Tasks.{is_flagged};
ghost use Rattle.task_sets.specs.task_sched.Inner.Stages.{StagesView, is_staged, stage_count};

use crate::vertex_queue::{Spread, VertexQueue};
use gl_base::{NoMemory, Vertex};
use std::alloc::Global;
use std::marker::Model;

/// Tasks that wait. Those that were woken with a key up to the bar are near, and come first; those
/// with a greater key are far; those that nothing has woken yet are fresh, and come last. In each
/// stage they come first in, first out. Where none is near, the bar moves up into the keys of the
/// far ones, and those up to it go over. A key below all that it moved into brings it down: the
/// near ones go behind the far ones, and it moves no higher then than it was, as long as one of
/// them is left.
#[derive(Drop)]
pub struct Stages {
    near: VertexQueue,
    far: VertexQueue,
    fresh: VertexQueue,
    /// The least key with which each vertex was woken since it waits.
    keys: Vec<u64>,
    /// The key up to which tasks are near.
    bar: u64,
    /// The key below which a task brings the bar down: the least one of those into which it moved.
    low: u64,
    /// Where the bar was before it came down, if it has not moved up since.
    fallen_from: Option<u64>,
}

impl Model for Stages {
    ghost use Rattle.std.specs.Prelude.{length};
    ghost use Rattle.task_sets.specs.task_sched.Inner.Stages.{StagesView, AreStages};

    ghost Value = { StagesView };

    ghost view = { λ s. record { near = s.near; far = s.far; fresh = s.fresh } };

    ghost invariant = { λ s. AreStages s.near s.far s.fresh (length s.keys.items) };
}

impl Stages {
    /// Stages in which every vertex below `count` waits, fresh and ascending.
    pub fn new(alloc: Global, count: u32) -> Result<Stages, NoMemory>
        ensures count { IfOk result (λ s. stage_count s ≡ count) }
        ensures all { IfOk result (λ s. (u : ℕ) → is_staged s u ≡ nat_lt u count) }
    {
        let mut fresh = VertexQueue::none(alloc, count)?;
        fresh.add_all(count);
        Ok(Stages {
            near: VertexQueue::none(alloc, count)?,
            far: VertexQueue::none(alloc, count)?,
            fresh,
            keys: Vec::from_elem(alloc, u64::MAX, count as usize)?,
            bar: 0,
            low: 0,
            fallen_from: None,
        })
    }

    /// The task whose turn it is, and `None` where none waits.
    pub fn front(&self) -> Option<Vertex>
        ensures { MatchOption result ((u : ℕ) →
            is_staged self.now u ≡ false) (λ v. is_staged self.now v.0 ≡ true) }
    {
        match (self.near.front(), self.far.front()) {
            (Some(near), _) => Some(near),
            (None, Some(far)) => Some(far),
            (None, None) => self.fresh.front(),
        }
    }

    /// The vertex waits, woken with this key. One that waits already comes no later than before.
    pub fn add(&mut self, v: Vertex, key: u64)
        requires { v.0 < stage_count self.old }
        ensures count { stage_count self.new ≡ stage_count self.old }
        ensures waits { (u : ℕ) →
            is_staged self.new u ≡ (if u == v.0 then true else is_staged self.old u) }
    {
        let place = v.0 as usize;
        let least = self.keys[place].min(key);
        self.keys[place] = least;
        if least < self.low {
            self.lower(least);
        }
        if least <= self.bar {
            self.add_near(v);
        } else {
            self.add_far(v);
        }
    }

    /// The vertex waits again, among the near ones.
    pub fn add_again(&mut self, v: Vertex)
        requires { v.0 < stage_count self.old }
        ensures count { stage_count self.new ≡ stage_count self.old }
        ensures waits { (u : ℕ) →
            is_staged self.new u ≡ (if u == v.0 then true else is_staged self.old u) }
    {
        self.add(v, self.low);
    }

    /// The bar comes down to this key, and the near ones go behind the far ones.
    fn lower(&mut self, key: u64)
        ensures count { stage_count self.new ≡ stage_count self.old }
        ensures waits { (u : ℕ) → is_staged self.new u ≡ is_staged self.old u }
    {
        if self.fallen_from.is_none() {
            self.fallen_from = Some(self.bar);
        }
        self.bar = key;
        self.low = key;
        'near: for _ in 0..self.near.queued() {
            let Some(v) = self.near.front() else {
                return;
            };
            self.move_near(v);
        }
    }

    /// The vertex waits no more.
    fn remove(&mut self, v: Vertex)
        requires { v.0 < stage_count self.old }
        ensures count { stage_count self.new ≡ stage_count self.old }
        ensures waits { (u : ℕ) →
            is_staged self.new u ≡ (if u == v.0 then false else is_staged self.old u) }
    {
        self.near.remove(v);
        self.far.remove(v);
        self.fresh.remove(v);
        self.keys[v.0 as usize] = u64::MAX;
    }

    /// The vertex waits no more, and where none is near then, the bar moves.
    pub fn admit(&mut self, v: Vertex)
        requires { v.0 < stage_count self.old }
        ensures count { stage_count self.new ≡ stage_count self.old }
        ensures waits { (u : ℕ) →
            is_staged self.new u ≡ (if u == v.0 then false else is_staged self.old u) }
    {
        self.remove(v);
        self.settle();
    }

    /// Where none is near, moves the bar, and far ones up to it go over. It looks at each far one.
    fn settle(&mut self)
        ensures count { stage_count self.new ≡ stage_count self.old }
        ensures waits { (u : ℕ) → is_staged self.new u ≡ is_staged self.old u }
    {
        if self.near.front().is_some() || self.far.front().is_none() {
            return;
        }
        let spread = self.far.spread(&self.keys);
        self.bar = bar_for(spread, self.fallen_from);
        self.low = spread.least;
        self.fallen_from = None;
        'far: for _ in 0..self.far.queued() {
            let Some(v) = self.far.front() else {
                return;
            };
            self.move_far(v);
        }
    }

    /// As after `new`. `count` is that of `new`.
    pub fn reset(&mut self, count: u32)
        requires { count ≡ stage_count self.old }
        ensures count { stage_count self.new ≡ stage_count self.old }
        ensures all { (u : ℕ) → is_staged self.new u ≡ nat_lt u count }
    {
        self.near.clear(count);
        self.far.clear(count);
        self.fresh.clear(count);
        self.fresh.add_all(count);
        forget_all(&mut self.keys);
        self.bar = 0;
        self.low = 0;
        self.fallen_from = None;
    }

    /// The vertex waits near.
    fn add_near(&mut self, v: Vertex)
        requires { v.0 < stage_count self.old }
        ensures count { stage_count self.new ≡ stage_count self.old }
        ensures waits { (u : ℕ) →
            is_staged self.new u ≡ (if u == v.0 then true else is_staged self.old u) }
    {
        self.far.remove(v);
        self.fresh.remove(v);
        self.near.add(v);
    }

    /// The vertex waits far, where it doesn't wait near.
    fn add_far(&mut self, v: Vertex)
        requires { v.0 < stage_count self.old }
        ensures count { stage_count self.new ≡ stage_count self.old }
        ensures waits { (u : ℕ) →
            is_staged self.new u ≡ (if u == v.0 then true else is_staged self.old u) }
    {
        self.fresh.remove(v);
        self.far.add(v);
    }

    /// A near one goes behind the far ones.
    fn move_near(&mut self, v: Vertex)
        requires { is_flagged self.old.near v.0 ≡ true }
        ensures count { stage_count self.new ≡ stage_count self.old }
        ensures waits { (u : ℕ) → is_staged self.new u ≡ is_staged self.old u }
    {
        self.near.remove(v);
        self.far.add(v);
    }

    /// The first far one goes over where its key is up to the bar, and else behind the other far
    /// ones.
    fn move_far(&mut self, v: Vertex)
        requires { is_flagged self.old.far v.0 ≡ true }
        ensures count { stage_count self.new ≡ stage_count self.old }
        ensures waits { (u : ℕ) → is_staged self.new u ≡ is_staged self.old u }
    {
        self.far.remove(v);
        if self.keys[v.0 as usize] <= self.bar {
            self.near.add(v);
        } else {
            self.far.add(v);
        }
    }
}

/// The bar for far tasks with these keys: their middle, and no higher than the bar was before it
/// came down, where a key is up to that.
fn bar_for(spread: Spread, before: Option<u64>) -> u64 {
    match before {
        Some(bar) if spread.least <= bar => spread.middle.min(bar),
        _ => spread.middle,
    }
}

/// Forgets all keys.
fn forget_all(keys: &mut Vec<u64>)
    ensures { length keys.new.items ≡ length keys.old.items }
{
    for place in 0..keys.len() {
        keys[place] = u64::MAX;
    }
}
