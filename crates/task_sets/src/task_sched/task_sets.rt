//! Tasks, pending vertices, and the window.
ghost use Rattle.std.specs.Prelude.{◌≡◌, ℕ, ◌+◌, ◌<◌, ◌≤◌, ◌==◌, ◌&&◌, true, false, Some, None, [], ◌∷◌, ◌++◌, drop, not, length, slice_get, slice_set, nat_lt, if◌then◌else◌, IfOk, IfSome, IsPermutation, MatchOption};
ghost use Rattle.std.specs.List.{list_any};
ghost use Rattle.task_sets.specs.task_sched.Inner.Picking.{IsFreeTask, pick_of};
ghost use Rattle.task_sets.specs.task_sched.Tasks.{TasksView, is_flagged, is_free, is_below, is_open, HasPending, IsUpTo, IsNextPick};

use crate::task_sched::flags::CountedFlags;
use crate::task_sched::stages::Stages;
use crate::vertex_queue::VertexLine;
use gl_base::{NoMemory, Vertex};
use std::alloc::Global;
use std::marker::Model;

/// A vertex that is admitted, and whether for a snapshot update, else for an update.
#[derive(Clone, Copy, PartialEq, Eq)]
pub struct Pick {
    pub vertex: Vertex,
    pub snapshot: bool,
}

/// The tasks of a machine, its pending vertices, and which of both are admitted: have a scope in
/// flight. Vertices are numbered by their place in the machine's own order, from 0 on. Contracts
/// see flags for each vertex, the pending ones that wait in turn, and counts; nothing of the order
/// in which tasks wait.
#[derive(Drop)]
pub struct TaskSet {
    count: u32,
    tasks: Vec<bool>,
    pending: CountedFlags,
    admitted: Vec<bool>,
    planned: Vec<bool>,
    stages: Stages,
    asked: VertexLine,
    plans: u64,
    outside: u64,
    window: Option<u32>,
}

impl Model for TaskSet {
    ghost use Rattle.task_sets.specs.task_sched.Inner.Picking.{IsFreeTask, pick_of};
    ghost use Rattle.task_sets.specs.task_sched.Tasks.{TasksView};
    ghost use Rattle.task_sets.specs.task_sched.Inner.Kept.{AreTasksKept};

    ghost Value = { TasksView };

    ghost view = { λ t. record {
      task = t.tasks.items;
      pending = t.pending;
      admitted = t.admitted.items;
      planned = t.planned.items;
      asked = t.asked.line;
      plans = t.plans;
      outside = t.outside;
      window = t.window;
    } };

    ghost invariant = { λ t.
        AreTasksKept t.count t.tasks.items t.pending t.admitted.items t.planned.items t.stages
        t.asked.among t.plans t.outside t.window };
}

impl TaskSet {
    /// Every vertex below `count` is a task, in ascending order; none is pending or admitted. At
    /// most `window` updates may be outside the last acknowledged snapshot or admitted.
    pub fn new(alloc: Global, count: u32, window: Option<u32>) -> Result<TaskSet, NoMemory>
        ensures count { IfOk result (λ t. length t.task ≡ count) }
        ensures admissions { IfOk result (λ t. length t.admitted ≡ count) }
        ensures tasks { IfOk result (λ t. (u : ℕ) → is_flagged t.task u ≡ nat_lt u count) }
        ensures none { IfOk result (λ t. (u : ℕ) → (is_flagged t.pending u ≡ false) ×
            (is_flagged t.admitted u ≡ false) × (is_flagged t.planned u ≡ false)) }
        ensures asked { IfOk result (λ t. t.asked ≡ []) }
        ensures counts { IfOk result (λ t. (t.plans ≡ 0) × (t.outside ≡ 0) × (t.window ≡ window)) }
    {
        Ok(TaskSet {
            count,
            tasks: Vec::from_elem(alloc, true, count as usize)?,
            pending: CountedFlags::none(alloc, count)?,
            admitted: Vec::from_elem(alloc, false, count as usize)?,
            planned: Vec::from_elem(alloc, false, count as usize)?,
            stages: Stages::new(alloc, count)?,
            asked: VertexLine::new(alloc, count)?,
            plans: 0,
            outside: 0,
            window,
        })
    }

    /// Makes v a task, woken with this key: of tasks those with small keys come first, as
    /// `docs/design/engine.md` says.
    pub fn wake(&mut self, v: Vertex, key: u64)
        requires { v.0 < length self.old.task }
        ensures { self.new ≡ record self.old { task = slice_set self.old.task v.0 true } }
    {
        let place = v.0 as usize;
        self.tasks[place] = true;
        if !self.admitted[place] {
            self.stages.add(v, key);
        }
    }

    /// Makes v pending.
    pub fn pend(&mut self, v: Vertex)
        requires { v.0 < length self.old.task }
        ensures is_pending { is_flagged self.new.pending v.0 ≡ true }
        ensures pending { self.new.pending ≡ slice_set self.old.pending v.0 true }
        ensures asked { self.new.asked ≡ (if is_flagged self.old.pending v.0 then self.old.asked
            else if is_flagged self.old.admitted v.0 then self.old.asked
            else self.old.asked ++ v ∷ []) }
        ensures rest { self.new ≡ record self.old {
          pending = self.new.pending;
          asked = self.new.asked;
        } }
    {
        let place = v.0 as usize;
        let was_pending = self.pending.has(v);
        self.pending.set(v);
        if was_pending {
            return;
        }
        if !self.admitted[place] {
            self.asked.push(v);
        }
    }

    /// What `next` would admit.
    pub fn look(&self) -> Option<Pick>
        ensures pick { IsNextPick self.now result }
        ensures within { IfSome result (λ pick. pick.vertex.0 < length self.now.task) }
        ensures asked { (u : ℕ) →
            list_any (λ v. v.0 == u) self.now.asked ≡ is_free self.now.pending self.now.admitted u }
        ensures window { IsUpTo self.now.window (self.now.outside + self.now.plans) }
    {
        pick_of(self.asked.first(), self.free_task())
    }

    /// Admits the first in line of the pending vertices that are not admitted, which has been
    /// pending longest where `admit_asked` was not called; else a task that is not admitted, where
    /// the window has room; and `None` exactly where there is no such vertex.
    pub fn next(&mut self) -> Option<Pick>
        ensures pick { IsNextPick self.old result }
        ensures within { IfSome result (λ pick. pick.vertex.0 < length self.old.task) }
        ensures asked { (u : ℕ) →
            list_any (λ v. v.0 == u) self.old.asked ≡ is_free self.old.pending self.old.admitted u }
        ensures snapshot { (v : Vertex) → result ≡ Some (record { vertex = v; snapshot = true }) →
            self.new ≡ record self.old {
              admitted = slice_set self.old.admitted v.0 true;
              asked = drop 1 self.old.asked;
            } }
        ensures update { (v : Vertex) → result ≡ Some (record { vertex = v; snapshot = false }) →
            self.new ≡ record self.old {
              admitted = slice_set self.old.admitted v.0 true;
              planned = slice_set self.old.planned v.0 true;
              plans = self.old.plans + 1;
            } }
        ensures none { result ≡ None → self.new ≡ self.old }
    {
        let pick = self.look()?;
        if pick.snapshot {
            self.admit_pending(pick.vertex);
        } else {
            self.admit_task(pick.vertex);
        }
        Some(pick)
    }

    /// The update of v was made: v is a task and admitted no more, and one update more is outside
    /// the last acknowledged snapshot.
    pub fn ran(&mut self, v: Vertex)
        requires admitted { is_flagged self.old.admitted v.0 ≡ true }
        requires task { is_flagged self.old.task v.0 ≡ true }
        requires no_snapshot { is_flagged self.old.pending v.0 ≡ false }
        requires few { self.old.outside < 18446744073709551615 }
        ensures plans { self.new.plans + 1 ≡ self.old.plans }
        ensures rest { self.new ≡ record self.old {
          task = slice_set self.old.task v.0 false;
          admitted = slice_set self.old.admitted v.0 false;
          planned = slice_set self.old.planned v.0 false;
          plans = self.new.plans;
          outside = self.old.outside + 1;
        } }
    {
        let place = v.0 as usize;
        self.tasks[place] = false;
        self.admitted[place] = false;
        self.planned[place] = false;
        self.plans -= 1;
        self.outside += 1;
    }

    /// The snapshot update of v was made: v is pending and admitted no more. A task stays one, and
    /// waits again.
    pub fn marked(&mut self, v: Vertex)
        requires admitted { is_flagged self.old.admitted v.0 ≡ true }
        requires pending { is_flagged self.old.pending v.0 ≡ true }
        ensures plans { self.new.plans + (if is_flagged self.old.planned v.0 then 1
            else 0) ≡ self.old.plans }
        ensures rest { self.new ≡ record self.old {
          pending = slice_set self.old.pending v.0 false;
          admitted = slice_set self.old.admitted v.0 false;
          planned = slice_set self.old.planned v.0 false;
          plans = self.new.plans;
        } }
    {
        let place = v.0 as usize;
        let plan = one_where(self.planned[place]);
        self.pending.take(v);
        self.admitted[place] = false;
        self.planned[place] = false;
        self.plans -= plan;
        if self.tasks[place] {
            self.stages.add_again(v);
        }
    }

    /// So many updates are outside the last acknowledged snapshot no more.
    pub fn acknowledged(&mut self, count: u64)
        requires { count ≤ self.old.outside }
        ensures outside { self.new.outside + count ≡ self.old.outside }
        ensures rest { self.new ≡ record self.old { outside = self.new.outside } }
    {
        self.outside -= count;
    }

    /// How many updates are outside the last acknowledged snapshot.
    pub fn outside(&self) -> u64
        ensures { result ≡ self.now.outside }
    {
        self.outside
    }

    /// How many vertices are admitted for an update. Each vertex has its flag for that, and none
    /// that is not admitted is planned.
    pub fn plans(&self) -> u64
        ensures plans { result ≡ self.now.plans }
        ensures flags { length self.now.planned ≡ length self.now.task }
        ensures free { (u : ℕ) → is_flagged self.now.admitted u ≡ false →
            is_flagged self.now.planned u ≡ false }
    {
        self.plans
    }

    /// How many vertices there are.
    pub fn count(&self) -> u32
        ensures { result ≡ length self.now.task }
    {
        self.count
    }

    /// Whether v is a task.
    pub fn is_task(&self, v: Vertex) -> bool
        ensures { result ≡ is_flagged self.now.task v.0 }
    {
        flag_at(&self.tasks, v)
    }

    /// Whether v is pending.
    pub fn is_pending(&self, v: Vertex) -> bool
        ensures { result ≡ is_flagged self.now.pending v.0 }
    {
        flag_at(self.pending.as_slice(), v)
    }

    /// Whether v is admitted.
    pub fn is_admitted(&self, v: Vertex) -> bool
        ensures { result ≡ is_flagged self.now.admitted v.0 }
    {
        flag_at(&self.admitted, v)
    }

    /// Some task, admitted or not, and `None` exactly where there is none. It looks at each vertex
    /// where all tasks are admitted.
    pub fn some_task(&self) -> Option<Vertex>
        ensures { MatchOption result ((u : ℕ) →
            is_flagged self.now.task u ≡ false) (λ v. is_flagged self.now.task v.0 ≡ true) }
    {
        match self.stages.front() {
            Some(vertex) => Some(vertex),
            None => first_flag(&self.tasks, self.count),
        }
    }

    /// Some pending vertex, admitted or not, and `None` exactly where there is none. It looks at
    /// each vertex where all pending ones are admitted.
    pub fn some_pending(&self) -> Option<Vertex>
        ensures { MatchOption result ((u : ℕ) →
            is_flagged self.now.pending u ≡ false) (λ v. is_flagged self.now.pending v.0 ≡ true) }
    {
        match self.asked.first() {
            Some(vertex) => Some(vertex),
            None => first_flag(self.pending.as_slice(), self.count),
        }
    }

    /// Whether a vertex is pending, admitted or not.
    pub fn has_pending(&self) -> bool
        ensures some { result ≡ true → HasPending self.now }
        ensures none { result ≡ false → (u : ℕ) → is_flagged self.now.pending u ≡ false }
    {
        self.pending.has_some()
    }

    /// As after `new`: every vertex is a task, none is pending or admitted, and no update is
    /// outside.
    pub fn reset(&mut self)
        ensures count { length self.new.task ≡ length self.old.task }
        ensures admissions { length self.new.admitted ≡ length self.old.task }
        ensures tasks { (u : ℕ) → is_flagged self.new.task u ≡ nat_lt u (length self.old.task) }
        ensures none { (u : ℕ) → (is_flagged self.new.pending u ≡ false) ×
            (is_flagged self.new.admitted u ≡ false) × (is_flagged self.new.planned u ≡ false) }
        ensures asked { self.new.asked ≡ [] }
        ensures counts { (self.new.plans ≡ 0) × (self.new.outside ≡ 0) ×
            (self.new.window ≡ self.old.window) }
    {
        set_all(&mut self.tasks, true);
        self.pending.clear();
        set_all(&mut self.admitted, false);
        set_all(&mut self.planned, false);
        self.stages.reset(self.count);
        self.asked.clear();
        self.plans = 0;
        self.outside = 0;
    }

    /// Admits the first pending vertex in line.
    fn admit_pending(&mut self, v: Vertex)
        requires within { v.0 < length self.old.task }
        requires asked { is_free self.old.pending self.old.admitted v.0 ≡ true }
        requires first { slice_get self.old.asked 0 ≡ Some v }
        ensures { self.new ≡ record self.old {
          admitted = slice_set self.old.admitted v.0 true;
          asked = drop 1 self.old.asked;
        } }
    {
        self.asked.pop();
        self.admitted[v.0 as usize] = true;
        self.stages.admit(v);
    }

    /// Admits a pending vertex for its snapshot update, whether it is the one that `next` would
    /// pick or not. In which order the others wait then is told nowhere.
    pub fn admit_asked(&mut self, v: Vertex)
        requires within { v.0 < length self.old.task }
        requires asked { is_free self.old.pending self.old.admitted v.0 ≡ true }
        ensures others { IsPermutation self.old.asked (v ∷ self.new.asked) }
        ensures rest { self.new ≡ record self.old {
          admitted = slice_set self.old.admitted v.0 true;
          asked = self.new.asked;
        } }
    {
        self.asked.remove(v);
        self.admitted[v.0 as usize] = true;
        self.stages.admit(v);
    }

    /// Admits a task for an update, where it is not pending and the window has room: as `next` does
    /// with the one that it picks.
    pub fn admit_task(&mut self, v: Vertex)
        requires within { v.0 < length self.old.task }
        requires task { is_free self.old.task self.old.admitted v.0 ≡ true }
        requires quiet { is_flagged self.old.pending v.0 ≡ false }
        requires room { is_open self.old ≡ true }
        ensures { self.new ≡ record self.old {
          admitted = slice_set self.old.admitted v.0 true;
          planned = slice_set self.old.planned v.0 true;
          plans = self.old.plans + 1;
        } }
    {
        let place = v.0 as usize;
        self.admitted[place] = true;
        self.planned[place] = true;
        self.plans += 1;
        self.stages.admit(v);
    }

    /// A task that is not admitted, where the window has room.
    fn free_task(&self) -> Option<Vertex>
        ensures { IsFreeTask self.now result }
    {
        if self.has_room() {
            self.stages.front()
        } else {
            None
        }
    }

    /// Whether the window has room for one update more.
    pub fn has_room(&self) -> bool
        ensures { result ≡ is_open self.now }
    {
        match self.window {
            Some(most) => self.outside + self.plans < most as u64,
            None => true,
        }
    }
}

/// The pending vertex is picked before the task.
fn pick_of(pending: Option<Vertex>, task: Option<Vertex>) -> Option<Pick>
    ensures { result ≡ pick_of pending task }
{
    match (pending, task) {
        (Some(vertex), _) => Some(Pick {
            vertex,
            snapshot: true,
        }),
        (None, Some(vertex)) => Some(Pick {
            vertex,
            snapshot: false,
        }),
        (None, None) => None,
    }
}

/// 1 for true.
fn one_where(flag: bool) -> u64
    ensures { result ≡ (if flag then 1 else 0) }
{
    if flag { 1 } else { 0 }
}

/// Gives each vertex the same flag.
fn set_all(flags: &mut Vec<bool>, flag: bool)
    ensures count { length flags.new.items ≡ length flags.old.items }
    ensures each { (u : ℕ) →
        is_flagged flags.new.items u ≡ (nat_lt u (length flags.old.items) && flag) }
{
    for place in 0..flags.len() {
        flags[place] = flag;
    }
}

/// Whether the vertex has its flag.
fn flag_at(flags: &[bool], v: Vertex) -> bool
    ensures { result ≡ is_flagged flags.now v.0 }
{
    match flags.get(v.0 as usize) {
        Some(flag) => *flag,
        None => false,
    }
}

/// The first vertex that has its flag.
fn first_flag(flags: &[bool], count: u32) -> Option<Vertex>
    requires { length flags.now ≡ count }
    ensures { MatchOption result ((u : ℕ) →
        is_flagged flags.now u ≡ false) (λ v. is_flagged flags.now v.0 ≡ true) }
{
    for v in 0..count {
        if flags[v as usize] {
            return Some(Vertex(v));
        }
    }
    None
}
