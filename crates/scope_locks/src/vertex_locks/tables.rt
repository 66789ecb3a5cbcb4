//! The locks of all vertices of a machine.
ghost use Rattle.std.specs.Prelude.{◌≡◌, ℕ, ◌+◌, ◌<◌, ◌≤◌, ◌==◌, true, false, is_some, None, length, slice_index_or, IfOk, OnOk, OnErr, MatchOption};
ghost use Rattle.std.specs.List.{All, list_any};
ghost use Rattle.scope_locks.specs.vertex_locks.Locks.{has, IsFreeLock, WritesAlone, WaitOnce};
ghost use Rattle.scope_locks.specs.vertex_locks.Tables.{is_owned, holder_at, queue_at, room_at, HasAsked, HasTaken, HasTakenFree, HasReleased, released_at, HasRoomFor, HasGranted, IsUnclaimed, IsTurn, IsGrantable, no_lock};
ghost use Rattle.scope_locks.specs.vertex_locks.Inner.KeptLists.{locks_in};
ghost use Rattle.scope_locks.specs.vertex_locks.Inner.KeptTables.{IsFree, IsListedAgain, IsTable, table_of};

use crate::vertex_locks::lists::LockList;
use crate::vertex_locks::locks::Lock;
use crate::vertex_locks::turns::Turn;
use gl_base::{Claim, NoMemory, ScopeId, Vertex};
use std::alloc::Global;
use std::marker::Model;
use task_sets::vertex_queue::VertexQueue;

/// A reader-writer lock for each vertex that a machine owns, with a queue of the claims that wait
/// for it. Contracts see whether a vertex has a lock, how each scope holds it, who waits for it,
/// and for how many more claims there is room. A vertex is listed where a claim came to its lock,
/// or one went for which others wait, until a look finds that nothing would be granted there. How
/// many locks somebody claims is counted. Locks behind the highest place where room was made are not
/// kept: nobody claims them.
#[derive(Drop)]
pub struct LockTable {
    places: Vec<u32>,
    locks: LockList,
    listed: VertexQueue,
    claimed: usize,
}

impl Model for LockTable {
    ghost use Rattle.std.specs.Prelude.{List, Option};
    ghost use Rattle.scope_locks.specs.vertex_locks.Locks.{LockView};
    ghost use Rattle.scope_locks.specs.vertex_locks.Inner.KeptLists.{locks_in};
    ghost use Rattle.scope_locks.specs.vertex_locks.Inner.KeptTables.{IsCountedTable};
    ghost use Rattle.scope_locks.specs.vertex_locks.Tables.{table_of};

    ghost Value = { List (Option LockView) };

    ghost view = { λ t. table_of t.places.items (locks_in t.locks) };

    ghost invariant = { λ t. IsCountedTable t.places.items t.locks t.listed t.claimed };
}

impl LockTable {
    /// A lock that nobody claims for each of these vertices, whose numbers are below `count`.
    pub fn new(alloc: Global, owned: &[Vertex], count: u32) -> Result<LockTable, NoMemory>
        requires below { All (λ v. v.0 < count) owned.now }
        requires few { length owned.now ≤ count }
        ensures owned { IfOk result (λ table. (x : ℕ) →
            is_owned table x ≡ list_any (λ v. v.0 == x) owned.now) }
        ensures free { IfOk result IsUnclaimed }
    {
        let mut places = Vec::from_elem(alloc, u32::MAX, count as usize)?;
        for (place, vertex) in owned.iter().enumerate() {
            places[vertex.0 as usize] = place as u32;
        }
        let listed = VertexQueue::none(alloc, count)?;
        Ok(LockTable {
            places,
            locks: LockList::free(alloc, owned.len()),
            listed,
            claimed: 0,
        })
    }

    /// Whether x has a lock here.
    #[inline(always)]
    pub fn owns(&self, x: Vertex) -> bool
        ensures { result ≡ is_owned self.now x.0 }
    {
        match self.places.get(x.0 as usize) {
            Some(place) => (*place as usize) < self.locks.many,
            None => false,
        }
    }

    /// Makes room for one more claim to the lock of x. No claim changes, whatever the answer.
    #[inline(always)]
    pub fn reserve(&mut self, x: Vertex) -> Result<(), NoMemory>
        requires { is_owned self.old x.0 ≡ true }
        ensures room { OnOk result (0 < room_at self.new x.0) }
        ensures same { HasRoomFor self.old self.new x.0 }
    {
        let place = self.places[x.0 as usize] as usize;
        self.locks.make(place)?;
        self.locks.kept[place].reserve()
    }

    /// The claim waits for the lock of x behind the others, and takes up room for one.
    #[inline(always)]
    pub fn request(&mut self, x: Vertex, claim: Claim)
        requires owned { is_owned self.old x.0 ≡ true }
        requires room { 0 < room_at self.old x.0 }
        requires holds_not { holder_at self.old x.0 claim.scope ≡ None }
        requires waits_not { has claim.scope (queue_at self.old x.0) ≡ false }
        ensures { HasAsked self.old self.new x.0 claim }
    {
        let place = self.places[x.0 as usize] as usize;
        let only = self.locks.kept[place].request(claim);
        self.listed.add(x);
        self.claimed += usize::from(only);
    }

    /// The claim holds the lock of x at once, where nobody claims it and there is room: as if it
    /// had asked and then been granted. Else nothing changes.
    #[inline(always)]
    pub fn take(&mut self, x: Vertex, claim: Claim) -> bool
        requires { is_owned self.old x.0 ≡ true }
        ensures taken { result ≡ true → HasTakenFree self.old self.new x.0 claim }
        ensures claimed { result ≡ false →
            IsFreeLock (holder_at self.old x.0) (queue_at self.old x.0) → room_at self.old x.0 ≡ 0 }
        ensures same { result ≡ false → self.new ≡ self.old }
    {
        let place = self.places[x.0 as usize] as usize;
        if place >= self.locks.kept.len() {
            return false;
        }
        let only = self.locks.kept[place].take(claim);
        self.claimed += usize::from(only);
        only
    }

    /// Whether the scope holds the lock of x.
    pub fn holds(&self, x: Vertex, scope: ScopeId) -> bool
        requires { is_owned self.now x.0 ≡ true }
        ensures { result ≡ is_some (holder_at self.now x.0 scope) }
    {
        let place = self.places[x.0 as usize] as usize;
        self.locks.at(place).holds(scope)
    }

    /// Whether the scope waits for the lock of x.
    pub fn waits(&self, x: Vertex, scope: ScopeId) -> bool
        requires { is_owned self.now x.0 ≡ true }
        ensures { result ≡ has scope (queue_at self.now x.0) }
    {
        let place = self.places[x.0 as usize] as usize;
        self.locks.at(place).waits(scope)
    }

    /// Whether nobody claims a lock. It looks at none.
    #[inline(always)]
    pub fn is_calm(&self) -> bool
        ensures free { result ≡ true → IsUnclaimed self.now }
        ensures claimed { result ≡ false → IsUnclaimed self.now → ⊥ }
    {
        self.claimed == 0
    }

    /// Whether nobody holds the lock of x, and nobody waits for it.
    pub fn is_free(&self, x: Vertex) -> bool
        requires { is_owned self.now x.0 ≡ true }
        ensures free { result ≡ true → IsFreeLock (holder_at self.now x.0) (queue_at self.now x.0) }
        ensures claimed { result ≡ false →
            IsFreeLock (holder_at self.now x.0) (queue_at self.now x.0) → ⊥ }
    {
        let place = self.places[x.0 as usize] as usize;
        self.locks.at(place).is_free()
    }

    /// What `grant` would answer.
    #[inline(always)]
    pub fn look(&self, x: Vertex) -> Turn
        requires { is_owned self.now x.0 ≡ true }
        ensures turn { IsTurn (holder_at self.now x.0) (queue_at self.now x.0) result }
        ensures exclusion { WritesAlone (holder_at self.now x.0) }
        ensures once { WaitOnce (holder_at self.now x.0) (queue_at self.now x.0) }
    {
        let place = self.places[x.0 as usize] as usize;
        match self.locks.at(place).next() {
            Some(claim) => Turn::Granted(claim),
            None => Turn::Waiting,
        }
    }

    /// The first that waits for the lock of x holds it, where it goes together with each holder.
    #[inline(always)]
    pub fn grant(&mut self, x: Vertex) -> Turn
        requires { is_owned self.old x.0 ≡ true }
        ensures turn { IsTurn (holder_at self.old x.0) (queue_at self.old x.0) result }
        ensures change { HasGranted self.old self.new x.0 result }
    {
        let place = self.places[x.0 as usize] as usize;
        if place >= self.locks.kept.len() {
            return Turn::Waiting;
        }
        match self.locks.kept[place].grant() {
            Some(claim) => Turn::Granted(claim),
            None => Turn::Waiting,
        }
    }

    /// A vertex whose lock `grant` would grant, and `None` exactly where there is none. It takes no
    /// memory, and looks at no lock twice at which nothing would be granted and no claim has come
    /// or gone since.
    pub fn next_grant(&mut self) -> Option<Vertex>
        ensures next { MatchOption result ((x : ℕ) → IsGrantable self.old x →
            ⊥) (λ x. IsGrantable self.old x.0) }
        ensures same { self.new ≡ self.old }
    {
        first_listed(&self.places, &self.locks, &mut self.listed)
    }

    /// The scope holds the lock of x no more, which makes room for one claim. Where it doesn't hold
    /// it no claim changes.
    pub fn release(&mut self, x: Vertex, scope: ScopeId)
        requires { is_owned self.old x.0 ≡ true }
        ensures released { HasReleased self.old self.new x.0 scope }
        ensures exact { self.new ≡ released_at self.old x.0 scope }
    {
        let place = self.places[x.0 as usize] as usize;
        if place >= self.locks.kept.len() {
            return;
        }
        let last = self.locks.kept[place].release(scope);
        self.claimed -= usize::from(last);
        list_waiting(&mut self.listed, &self.locks.kept[place], x);
    }

    /// Nobody claims a lock any more, as after `new`. The room stays. It takes time for each lock.
    pub fn reset(&mut self)
        ensures owned { (y : ℕ) → is_owned self.new y ≡ is_owned self.old y }
        ensures free { IsUnclaimed self.new }
        ensures room { (y : ℕ) → room_at self.old y ≤ room_at self.new y }
    {
        reset_all(&mut self.locks.kept);
        self.claimed = 0;
    }
}

/// Lists x where somebody waits for its lock.
fn list_waiting(listed: &mut VertexQueue, lock: &Lock, x: Vertex)
    requires { x.0 < length listed.old }
    ensures { IsListedAgain lock.now.queue listed.old x.0 listed.new }
{
    if lock.has_waiting() {
        listed.add(x);
    }
}

/// The first of the listed vertices whose lock would be granted. Those before it are listed no
/// more.
fn first_listed(places: &[u32], locks: &LockList, listed: &mut VertexQueue) -> Option<Vertex>
    requires free { locks.now.free ≡ no_lock }
    requires table { IsTable places.now (locks_in locks.now) listed.old }
    ensures next { MatchOption result ((x : ℕ) → IsGrantable (table_of places.now (locks_in locks.now)) x →
        ⊥) (λ x. IsGrantable (table_of places.now (locks_in locks.now)) x.0) }
    ensures kept { IsTable places.now (locks_in locks.now) listed.new }
{
    while let Some(x) = listed.front() {
        if is_grantable(places, locks, x) {
            return Some(x);
        }
        listed.remove(x);
    }
    None
}

/// Whether the lock of x would be granted.
#[inline(always)]
fn is_grantable(places: &[u32], locks: &LockList, x: Vertex) -> bool
    requires free { locks.now.free ≡ no_lock }
    requires owned { is_owned (table_of places.now (locks_in locks.now)) x.0 ≡ true }
    ensures yes { result ≡ true → IsGrantable (table_of places.now (locks_in locks.now)) x.0 }
    ensures not { result ≡ false → IsGrantable (table_of places.now (locks_in locks.now)) x.0 → ⊥ }
{
    let place = places[x.0 as usize] as usize;
    locks.at(place).next().is_some()
}

/// Nobody claims one of these locks any more.
fn reset_all(locks: &mut [Lock])
    ensures free { (k : ℕ) → IsFree (slice_index_or locks.new k no_lock) }
    ensures room { (k : ℕ) →
        (slice_index_or locks.old k no_lock).room ≤ (slice_index_or locks.new k no_lock).room }
{
    for lock in locks.iter_mut() {
        lock.reset();
    }
}
