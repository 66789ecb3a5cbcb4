//! Releasing locks.
ghost use Rattle.std.specs.Prelude.{◌≡◌, ℕ, true, None, is_some};
ghost use Rattle.std.specs.List.{All};
ghost use Rattle.machine_core.specs.lock_release.Released.{set_for, is_owned, holder_at, queue_at, is_one_of, released_all};

use gl_base::{ScopeId, Vertex};
use scope_locks::vertex_locks::LockTable;

/// A scope that holds locks of these vertices alone, or none, holds no lock any more.
pub fn release_all(locks: &mut LockTable, vertices: &[Vertex], scope: ScopeId)
    requires only { (x : ℕ) → is_some (holder_at locks.old x scope) ≡ true →
        is_one_of vertices.now x ≡ true }
    requires owned { All (λ v. is_owned locks.old v.0 ≡ true) vertices.now }
    ensures owned { (x : ℕ) → is_owned locks.new x ≡ is_owned locks.old x }
    ensures holder { (x : ℕ) (s : ScopeId) →
        holder_at locks.new x s ≡ set_for (holder_at locks.old x) scope None s }
    ensures queue { (x : ℕ) → queue_at locks.new x ≡ queue_at locks.old x }
    ensures exact { locks.new ≡ released_all scope vertices.now locks.old }
{
    for place in 0..vertices.len() {
        locks.release(vertices[place], scope);
    }
}
