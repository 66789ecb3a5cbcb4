//! Which scopes wait for their snapshot update.
ghost use Rattle.std.specs.Prelude.{◌≡◌, true, false, IfSome, IfNone};
ghost use Rattle.gl_base.specs.declared.scopes.ScopeId.{ScopeId};
ghost use Rattle.machine_core.specs.machine_parts.Order.{IsOrderly};
ghost use Rattle.machine_core.specs.machine_parts.Parts.{part_of};
ghost use Rattle.snapshot_machines.specs.marking.Marking.{MayMark};

use crate::marking::marking::centre_to_mark;
use gl_base::ScopeId;
use machine_core::machine_parts::Core;

/// A scope of this home that may make its snapshot update now; `None` exactly where none may. It
/// looks at the ready scopes alone.
pub fn next_mark(core: &Core) -> Option<ScopeId>
    requires { IsOrderly core.now }
    ensures some { IfSome result (λ s. MayMark s (part_of core.now)) }
    ensures home { IfSome result (λ s. s.home ≡ core.now.numbers.local.me) }
    ensures none { IfNone result ((s : ScopeId) → MayMark s (part_of core.now) → ⊥) }
{
    let ready = core.pipe.ready_ones();
    for place in 0..ready.len() {
        let scope = ready[place].scope;
        if may_mark(core, scope) {
            return Some(scope);
        }
    }
    None
}

/// Whether a scope may make its snapshot update now; then it is of this home.
pub fn may_mark(core: &Core, scope: ScopeId) -> bool
    requires { IsOrderly core.now }
    ensures yes { result ≡ true → MayMark scope (part_of core.now) ×
        (scope.home ≡ core.now.numbers.local.me) }
    ensures no { result ≡ false → MayMark scope (part_of core.now) → ⊥ }
{
    centre_to_mark(core, scope).is_some()
}
