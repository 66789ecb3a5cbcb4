//! Which vertex may be updated at once.
ghost use Rattle.std.specs.Prelude.{◌≡◌, true, false, None, IfSome};
ghost use Rattle.std.specs.List.{All};
ghost use Rattle.machine_core.specs.machine_at_once.Picks.{CanNotUpdatePick, HasNoneAtOnce, IsOrderly, KnowsPlaces, is_own};
ghost use Rattle.machine_core.specs.machine_at_once.Inner.Finding.{AreFreeLocks, IsFoundPick, IsFreeScope, is_owned};

use crate::machine_parts::Core;
use gl_base::Vertex;
use scope_locks::vertex_locks::LockTable;

/// The vertex that is to be updated, and its place in the machine's own order.
#[derive(Clone, Copy)]
pub struct Found {
    pub place: Vertex,
    pub vertex: Vertex,
}

/// The vertex that the tasks pick, where it may be updated at once.
pub fn find(core: &Core) -> Option<Found>
    requires orderly { IsOrderly core.now }
    requires places { KnowsPlaces core.now }
    ensures found { IfSome result (λ f. IsFoundPick core.now f) }
    ensures none { result ≡ None → CanNotUpdatePick core.now }
    ensures refused { result ≡ None → HasNoneAtOnce core.now }
{
    let pick = core.numbers.tasks.look()?;
    let vertex = core.by_place[pick.vertex.0 as usize];
    if pick.snapshot || core.pipe.flight_count() >= core.terms.pipeline as usize {
        return None;
    }
    if is_free_scope(core, vertex) {
        Some(Found {
            place: pick.vertex,
            vertex,
        })
    } else {
        None
    }
}

/// Whether the scope of an own vertex has this machine alone, and nobody holds or waits for a lock
/// of it. Where nobody claims a lock of the machine, none is looked at.
fn is_free_scope(core: &Core, v: Vertex) -> bool
    requires orderly { IsOrderly core.now }
    requires own { is_own core.now.numbers.local v.0 ≡ true }
    ensures free { result ≡ true → IsFreeScope core.now v }
    ensures claimed { result ≡ false → IsFreeScope core.now v → ⊥ }
{
    core.numbers.local.parts(v).len() == 1
        && (core.locks.is_calm() || are_free(&core.locks, core.numbers.local.part(v)))
}

/// Whether nobody holds or waits for a lock of these vertices.
fn are_free(locks: &LockTable, part: &[Vertex]) -> bool
    requires { All (λ x. is_owned locks.now x.0 ≡ true) part.now }
    ensures free { result ≡ true → AreFreeLocks locks.now part.now }
    ensures claimed { result ≡ false → AreFreeLocks locks.now part.now → ⊥ }
{
    for place in 0..part.len() {
        if !locks.is_free(part[place]) {
            return false;
        }
    }
    true
}
