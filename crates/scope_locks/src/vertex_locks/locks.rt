//! One lock.
ghost use Rattle.std.specs.Prelude.{◌≡◌, ◌+◌, ◌<◌, ◌≤◌, ◌==◌, true, false, None, [], ◌∷◌, ◌++◌, length, nat_lt, take, drop, vec_len, OnOk, IfSome};
ghost use Rattle.std.specs.List.{position, list_any, remove};
ghost use Rattle.std.specs.Vec.{vec_capacity};
ghost use Rattle.gl_base.specs.declared.scopes.Claim.{Claim};
ghost use Rattle.gl_base.specs.scope_lists.Scopes.{is_scope};
ghost use Rattle.scope_locks.specs.vertex_locks.Locks.{LockView, has, mode_of, released, IsNext, IsFreeLock, WritesAlone, WaitOnce};
ghost use Rattle.scope_locks.specs.vertex_locks.Tables.{no_lock};
ghost use Rattle.gl_base.specs.scope_lists.Scopes.{GoTogether};
ghost use Rattle.scope_locks.specs.vertex_locks.Inner.KeptLocks.{IsLock, requested, IsTaken, IsReleased, SameClaims, claimed_once, counted_if};

use gl_base::scope_lists::is_scope;
use gl_base::{Claim, Mode, NoMemory, ScopeId};
use std::alloc::Global;
use std::marker::Model;

/// A lock: the claims of its holders, and behind them those that wait, the first first. So a grant
/// moves a border. Contracts see the two lists, and for how many more claims there is room.
#[derive(Drop)]
pub struct Lock {
    claims: Vec<Claim>,
    held: usize,
}

impl Model for Lock {
    ghost use Rattle.std.specs.Prelude.{◌-◌};
    ghost use Rattle.scope_locks.specs.vertex_locks.Inner.KeptLocks.{IsLock};
    ghost use Rattle.scope_locks.specs.vertex_locks.Locks.{LockView, view_of};

    ghost Value = { LockView };

    ghost view = { λ l. view_of l.claims.items l.held (l.claims.cap - l.claims.len) };

    ghost invariant = { λ l. IsLock l.claims.items l.held };
}

impl Lock {
    /// A lock that nobody claims, without room.
    pub fn free(alloc: Global) -> Lock
        ensures { result ≡ no_lock }
    {
        Lock {
            claims: Vec::new(alloc),
            held: 0,
        }
    }

    /// Makes room for one more claim.
    #[inline(always)]
    pub fn reserve(&mut self) -> Result<(), NoMemory>
        ensures room { OnOk result (0 < self.new.room) }
        ensures more { self.old.room ≤ self.new.room }
        ensures same { SameClaims self.old self.new }
    {
        self.claims.reserve(1)?;
        Ok(())
    }

    /// The claim waits behind the others. Answers whether it is the only one.
    #[inline(always)]
    pub fn request(&mut self, claim: Claim) -> bool
        requires room { 0 < self.old.room }
        requires holds_not { has claim.scope self.old.holders ≡ false }
        requires waits_not { has claim.scope self.old.queue ≡ false }
        ensures asked { self.new ≡ requested claim self.old }
        ensures only { claimed_once self.new ≡ claimed_once self.old + counted_if result }
    {
        let only = self.claims.is_empty();
        self.claims.push_reserved(claim);
        only
    }

    /// The claim holds the lock at once, where nobody claims it and there is room.
    #[inline(always)]
    pub fn take(&mut self, claim: Claim) -> bool
        ensures free { result ≡ true →
            IsFreeLock (mode_of self.old.holders) self.old.queue × (0 < self.old.room) }
        ensures taken { result ≡ true → IsTaken (requested claim self.old) self.new claim }
        ensures claimed { result ≡ false →
            IsFreeLock (mode_of self.old.holders) self.old.queue → self.old.room ≡ 0 }
        ensures same { result ≡ false → self.new ≡ self.old }
        ensures only { claimed_once self.new ≡ claimed_once self.old + counted_if result }
    {
        if !self.claims.is_empty() {
            return false;
        }
        if self.claims.capacity() == 0 {
            return false;
        }
        self.claims.push_reserved(claim);
        self.held = 1;
        true
    }

    /// The first that waits, where it goes together with each holder.
    #[inline(always)]
    pub fn next(&self) -> Option<Claim>
        ensures next { IfSome result (λ c. IsNext (mode_of self.now.holders) self.now.queue c) }
        ensures none { result ≡ None → (c : Claim) →
            IsNext (mode_of self.now.holders) self.now.queue c → ⊥ }
        ensures exclusion { WritesAlone (mode_of self.now.holders) }
        ensures once { WaitOnce (mode_of self.now.holders) self.now.queue }
    {
        first_waiting(&self.claims, self.held)
    }

    /// The first that waits holds the lock, where it goes together with each holder.
    #[inline(always)]
    pub fn grant(&mut self) -> Option<Claim>
        ensures next { IfSome result (λ c. IsNext (mode_of self.old.holders) self.old.queue c) }
        ensures none { result ≡ None → (c : Claim) →
            IsNext (mode_of self.old.holders) self.old.queue c → ⊥ }
        ensures taken { IfSome result (λ c. IsTaken self.old self.new c) }
        ensures waiting { result ≡ None → self.new ≡ self.old }
        ensures claimed { claimed_once self.new ≡ claimed_once self.old }
    {
        let claim = self.next()?;
        self.held += 1;
        Some(claim)
    }

    /// The scope holds the lock no more. Where it doesn't hold it, also where it waits for it,
    /// nothing changes. Answers whether the last claim went.
    pub fn release(&mut self, scope: ScopeId) -> bool
        ensures gone { IsReleased self.old self.new scope }
        ensures exact { self.new ≡ released scope self.old }
        ensures last { claimed_once self.new + counted_if result ≡ claimed_once self.old }
    {
        if let Some(place) = place_of(&self.claims[..self.held], scope) {
            take_out(&mut self.claims, place);
            self.held -= 1;
            return self.claims.is_empty();
        }
        false
    }

    /// Whether the scope holds the lock.
    pub fn holds(&self, scope: ScopeId) -> bool
        ensures { result ≡ has scope self.now.holders }
    {
        is_among(&self.claims[..self.held], scope)
    }

    /// Whether the scope waits for the lock.
    pub fn waits(&self, scope: ScopeId) -> bool
        ensures { result ≡ has scope self.now.queue }
    {
        let (_, waiting) = self.claims.split_at(self.held);
        is_among(waiting, scope)
    }

    /// Whether somebody waits for the lock.
    #[inline(always)]
    pub fn has_waiting(&self) -> bool
        ensures { result ≡ nat_lt 0 (length self.now.queue) }
    {
        self.held < self.claims.len()
    }

    /// Whether nobody holds the lock, and nobody waits for it.
    pub fn is_free(&self) -> bool
        ensures free { result ≡ true → IsFreeLock (mode_of self.now.holders) self.now.queue }
        ensures claimed { result ≡ false →
            IsFreeLock (mode_of self.now.holders) self.now.queue → ⊥ }
    {
        are_none(&self.claims)
    }

    /// Nobody claims the lock any more.
    pub fn reset(&mut self)
        ensures holders { self.new.holders ≡ [] }
        ensures queue { self.new.queue ≡ [] }
        ensures more { self.old.room ≤ self.new.room }
    {
        self.claims.clear();
        self.held = 0;
    }
}

/// The first of the claims behind the holders, where it goes together with each holder. Where the
/// first holder reads, all do.
#[inline(always)]
fn first_waiting(claims: &[Claim], held: usize) -> Option<Claim>
    requires { IsLock claims.now held }
    ensures next { IfSome result (λ c.
        IsNext (mode_of (take held claims.now)) (drop held claims.now) c) }
    ensures none { result ≡ None → (c : Claim) →
        IsNext (mode_of (take held claims.now)) (drop held claims.now) c → ⊥ }
{
    if held >= claims.len() {
        return None;
    }
    let claim = claims[held];
    if held == 0 {
        return Some(claim);
    }
    if go_together(claims[0].mode, claim.mode) {
        Some(claim)
    } else {
        None
    }
}

/// Whether there is no claim.
fn are_none(claims: &[Claim]) -> bool
    ensures { result ≡ (length claims.now == 0) }
{
    claims.is_empty()
}

/// Whether two may hold one lock.
#[inline(always)]
fn go_together(one: Mode, other: Mode) -> bool
    ensures yes { result ≡ true → GoTogether one other }
    ensures not { result ≡ false → GoTogether one other → ⊥ }
{
    matches!((one, other), (Mode::Reader, Mode::Reader))
}

/// Whether one of these claims is the scope's.
fn is_among(claims: &[Claim], scope: ScopeId) -> bool
    ensures { result ≡ list_any (λ c. is_scope c.scope scope) claims.now }
{
    claims.iter().any(|claim| is_scope(claim.scope, scope))
}

/// The place of the scope's claim.
fn place_of(claims: &[Claim], scope: ScopeId) -> Option<usize>
    ensures { result ≡ position (λ c. is_scope c.scope scope) claims.now }
{
    claims.iter().position(|claim| is_scope(claim.scope, scope))
}

/// Takes a claim out. Most often it is the last one, and then none has to be moved.
#[inline(always)]
fn take_out(claims: &mut Vec<Claim>, place: usize)
    requires { place < vec_len claims.old }
    ensures items { claims.new.items ≡ remove claims.old.items place }
    ensures len { vec_len claims.new + 1 ≡ vec_len claims.old }
    ensures capacity { vec_capacity claims.new ≡ vec_capacity claims.old }
{
    if place + 1 == claims.len() {
        let _ = claims.pop();
    } else {
        let _ = claims.remove(place);
    }
}
