//! The locks of all vertices.
ghost use Rattle.std.specs.Prelude.{◌≡◌, ℕ, ◌<◌, ◌++◌, ◌∷◌, [], List, Bool, false, true, None, length, All, OnOk, IfOk, IfSome};
ghost use Rattle.gl_base.specs.declared.scopes.ScopeId.{ScopeId};
ghost use Rattle.gl_base.specs.scope_lists.Scopes.{set_at};
ghost use Rattle.full_cluster.specs.WholeLocks.{released_of, AreLocksOf, HasGrantedNext, HasRoomAt, IsNextOf};

use crate::WholeLock;
use gl_base::{NoMemory, ScopeId, Vertex};
use std::alloc::Global;

/// A lock for each vertex, each held by one scope at a time.
#[derive(Drop)]
pub struct WholeLocks {
    locks: Vec<WholeLock>,
}

impl WholeLocks {
    /// So many locks, which nobody holds and for which nobody waits.
    pub fn free(alloc: Global, count: usize) -> Result<WholeLocks, NoMemory>
        ensures count { IfOk result (λ all. length all.locks.items ≡ count) }
        ensures free { IfOk result (λ all. AreLocksOf all.locks.items (λ x s. false) (λ x. [])) }
    {
        let mut locks = Vec::with_capacity(alloc, count)?;
        for _ in 0..count {
            locks.push_reserved(WholeLock::free(alloc));
        }
        Ok(WholeLocks { locks })
    }

    /// The scope that `grant` would answer.
    pub fn first(&self, x: Vertex) -> Option<ScopeId>
        requires { x.0 < length self.now.locks.items }
        ensures some { (holds : ℕ → ScopeId → Bool) (queue : ℕ → List ScopeId) →
            AreLocksOf self.now.locks.items holds queue →
            IfSome result (IsNextOf (holds x.0) (queue x.0)) }
        ensures none { (holds : ℕ → ScopeId → Bool) (queue : ℕ → List ScopeId) →
            AreLocksOf self.now.locks.items holds queue → result ≡ None →
            (s : ScopeId) → IsNextOf (holds x.0) (queue x.0) s → ⊥ }
    {
        self.locks[x.0 as usize].first()
    }

    /// The first that waits for the lock of x holds it, if nobody held it. Answers which scope that
    /// is. It takes no memory.
    pub fn grant(&mut self, x: Vertex) -> Option<ScopeId>
        requires { x.0 < length self.old.locks.items }
        ensures count { length self.new.locks.items ≡ length self.old.locks.items }
        ensures granted { (holds : ℕ → ScopeId → Bool) (queue : ℕ → List ScopeId) →
            AreLocksOf self.old.locks.items holds queue →
            IfSome result (HasGrantedNext self.new.locks.items holds queue x.0) }
        ensures not_now { (holds : ℕ → ScopeId → Bool) (queue : ℕ → List ScopeId) →
            AreLocksOf self.old.locks.items holds queue → result ≡ None →
            (s : ScopeId) → IsNextOf (holds x.0) (queue x.0) s → ⊥ }
        ensures unchanged { (holds : ℕ → ScopeId → Bool) (queue : ℕ → List ScopeId) →
            AreLocksOf self.old.locks.items holds queue → result ≡ None →
            AreLocksOf self.new.locks.items holds queue }
        ensures room { (y : ℕ) → y < length self.old.locks.items →
            HasRoomAt self.old.locks.items y → HasRoomAt self.new.locks.items y }
    {
        self.locks[x.0 as usize].grant()
    }

    /// Makes room for one more scope that waits for the lock of x. Nothing else changes, whatever
    /// the answer.
    pub fn reserve(&mut self, x: Vertex) -> Result<(), NoMemory>
        requires { x.0 < length self.old.locks.items }
        ensures count { length self.new.locks.items ≡ length self.old.locks.items }
        ensures room { OnOk result (HasRoomAt self.new.locks.items x.0) }
        ensures same { (holds : ℕ → ScopeId → Bool) (queue : ℕ → List ScopeId) →
            AreLocksOf self.old.locks.items holds queue →
            AreLocksOf self.new.locks.items holds queue }
    {
        self.locks[x.0 as usize].reserve()
    }

    /// The scope waits for the lock of x behind the others. It takes no memory.
    pub fn wait(&mut self, x: Vertex, scope: ScopeId)
        requires inside { x.0 < length self.old.locks.items }
        requires room { HasRoomAt self.old.locks.items x.0 }
        ensures count { length self.new.locks.items ≡ length self.old.locks.items }
        ensures waits { (holds : ℕ → ScopeId → Bool) (queue : ℕ → List ScopeId) →
            AreLocksOf self.old.locks.items holds queue →
            AreLocksOf self.new.locks.items holds (set_at queue x.0 (queue x.0 ++ scope ∷ [])) }
    {
        self.locks[x.0 as usize].wait(scope);
    }

    /// The scope holds the locks of these vertices no more.
    pub fn release(&mut self, scope: ScopeId, vertices: &[(Vertex, u64)])
        requires { All (λ pair. pair.0.0 < length self.old.locks.items) vertices.now }
        ensures count { length self.new.locks.items ≡ length self.old.locks.items }
        ensures released { (holds : ℕ → ScopeId → Bool) (queue : ℕ → List ScopeId) →
            AreLocksOf self.old.locks.items holds queue →
            AreLocksOf self.new.locks.items (released_of vertices.now scope holds) queue }
    {
        for pair in vertices {
            self.locks[pair.0.0 as usize].release(scope);
        }
    }
}
