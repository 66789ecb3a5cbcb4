//! The lock of a vertex where each scope takes its locks for itself alone.
ghost use Rattle.std.specs.Prelude.{◌≡◌, ◌≢◌, if◌then◌else◌, None, Some, [], ◌∷◌, ◌++◌, OnOk, OnErr, IfSome};
ghost use Rattle.gl_base.specs.declared.scopes.ScopeId.{ScopeId};
ghost use Rattle.full_cluster.specs.WholeLocks.{holds_lock, HasRoomToWait, IsFirstOf, IsFreed, IsGrantedTo, IsUngrantable};

use gl_base::scope_lists::is_scope;
use gl_base::{NoMemory, ScopeId};
use std::alloc::Global;
use std::collections::VecDeque;

/// A lock that one scope holds at a time, and the scopes that wait for it, the first first.
#[derive(Drop)]
pub struct WholeLock {
    holder: Option<ScopeId>,
    queue: VecDeque<ScopeId>,
}

impl WholeLock {
    /// A lock that nobody holds, and for which nobody waits.
    pub fn free(alloc: Global) -> WholeLock
        ensures holder { result.holder ≡ None }
        ensures queue { result.queue.items ≡ [] }
    {
        WholeLock {
            holder: None,
            queue: VecDeque::new(alloc),
        }
    }

    /// Whether the scope holds the lock.
    pub fn holds(&self, scope: ScopeId) -> bool
        ensures { result ≡ holds_lock self.now.holder scope }
    {
        match self.holder {
            Some(holder) => is_scope(scope, holder),
            None => false,
        }
    }

    /// Makes room for one more scope that waits.
    pub fn reserve(&mut self) -> Result<(), NoMemory>
        ensures room { OnOk result (HasRoomToWait self.new) }
        ensures holder { self.new.holder ≡ self.old.holder }
        ensures queue { self.new.queue.items ≡ self.old.queue.items }
    {
        self.queue.reserve(1)?;
        Ok(())
    }

    /// The scope waits for the lock behind the others. It takes no memory.
    pub fn wait(&mut self, scope: ScopeId)
        requires { HasRoomToWait self.old }
        ensures holder { self.new.holder ≡ self.old.holder }
        ensures queue { self.new.queue.items ≡ self.old.queue.items ++ scope ∷ [] }
    {
        self.queue.push_back_reserved(scope);
    }

    /// The scope waits for the lock behind the others. After `NoMemory` the lock is unchanged.
    pub fn ask(&mut self, scope: ScopeId) -> Result<(), NoMemory>
        ensures holder { self.new.holder ≡ self.old.holder }
        ensures queue { OnOk result (self.new.queue.items ≡ self.old.queue.items ++ scope ∷ []) }
        ensures unchanged { OnErr result (self.new.queue.items ≡ self.old.queue.items) }
    {
        self.queue.push_back(scope)?;
        Ok(())
    }

    /// The scope that `grant` would answer.
    pub fn first(&self) -> Option<ScopeId>
        ensures some { IfSome result (λ s. IsFirstOf self.now s) }
        ensures none { result ≡ None → IsUngrantable self.now }
    {
        match self.holder {
            None => self.queue.front().copied(),
            Some(_) => None,
        }
    }

    /// The first that waits holds the lock, if nobody held it. Answers which scope that is.
    pub fn grant(&mut self) -> Option<ScopeId>
        ensures granted { IfSome result (λ s. IsGrantedTo self.old self.new s) }
        ensures not_now { result ≡ None → IsUngrantable self.old }
        ensures room { HasRoomToWait self.old → HasRoomToWait self.new }
        ensures unchanged { result ≡ None → (self.new.holder ≡ self.old.holder) ×
            (self.new.queue.items ≡ self.old.queue.items) }
    {
        if self.holder.is_some() {
            return None;
        }
        let first = self.queue.pop_front()?;
        self.holder = Some(first);
        Some(first)
    }

    /// The scope holds the lock no more. If it doesn't hold it, nothing changes.
    pub fn release(&mut self, scope: ScopeId)
        ensures { IsFreed self.old self.new scope }
    {
        if self.holds(scope) {
            self.holder = None;
        }
    }
}
