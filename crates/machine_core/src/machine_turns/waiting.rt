//! Which scopes wait for their update.
ghost use Rattle.std.specs.Prelude.{◌≡◌, ◌&&◌, true, false, not, None, IfSome, IfNone};
ghost use Rattle.gl_base.specs.declared.scopes.ScopeId.{ScopeId};
ghost use Rattle.machine_core.specs.machine_turns.Turns.{IsOrderly, HasEachRow, MayUpdate, part_of, is_ready, task_here, pending_here};
ghost use Rattle.machine_core.specs.machine_turns.Inner.Taking.{CanBeTaken};

use crate::machine_parts::Core;
use gl_base::{ScopeId, Vertex};
use partition::machine_numbers::Numbers;

/// The vertex of a scope that may make its update now.
pub fn centre_to_update(core: &Core, scope: ScopeId) -> Option<Vertex>
    requires orderly { IsOrderly core.now }
    requires rows { HasEachRow core.now.numbers.local }
    ensures some { IfSome result (λ centre. CanBeTaken core.now scope centre) }
    ensures none { result ≡ None → MayUpdate scope (part_of core.now) 1 → ⊥ }
{
    if !core.pipe.is_ready(scope) {
        return None;
    }
    let centre = core.pipe.centre(scope);
    if waits(&core.numbers, centre) {
        Some(centre)
    } else {
        None
    }
}

/// A scope of this home that may make its update now; `None` exactly where none may. It looks at
/// the ready scopes alone.
pub fn next_ready(core: &Core) -> Option<ScopeId>
    requires { IsOrderly core.now }
    ensures some { IfSome result (λ s. MayUpdate s (part_of core.now) 1) }
    ensures home { IfSome result (λ s. s.home ≡ core.now.numbers.local.me) }
    ensures none { IfNone result ((s : ScopeId) → MayUpdate s (part_of core.now) 1 → ⊥) }
{
    let ready = core.pipe.ready_ones();
    for place in 0..ready.len() {
        let scope = ready[place].scope;
        if may_update(core, scope) {
            return Some(scope);
        }
    }
    None
}

/// Whether a ready scope may make its update now.
fn may_update(core: &Core, scope: ScopeId) -> bool
    requires { is_ready core.now.pipe scope ≡ true }
    ensures yes { result ≡ true → MayUpdate scope (part_of core.now) 1 }
    ensures no { result ≡ false → MayUpdate scope (part_of core.now) 1 → ⊥ }
{
    waits(&core.numbers, core.pipe.centre(scope))
}

/// Whether v is a task that is not pending.
fn waits(numbers: &Numbers, v: Vertex) -> bool
    ensures { result ≡ (task_here numbers.now v.0 && not (pending_here numbers.now v.0)) }
{
    let count = numbers.tasks.count() as usize;
    match numbers.local.place(v) {
        Some(place) if place < count => {
            let own = Vertex(place as u32);
            numbers.tasks.is_task(own) && !numbers.tasks.is_pending(own)
        }
        _ => false,
    }
}
