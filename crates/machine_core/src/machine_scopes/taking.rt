//! Locks that a scope takes at once, since nobody claims them.
ghost use Rattle.std.specs.Prelude.{◌≡◌, true, is_some};
ghost use Rattle.machine_core.specs.machine_scopes.Granting.{SameSettings};
ghost use Rattle.machine_core.specs.machine_scopes.Inner.Going.{IsOrderlyBut, HasNextRoom, Wants, is_scope, entered_at};
ghost use Rattle.machine_core.specs.machine_scopes.Inner.Taking.{HasTakenOn, wanted_then};

use crate::machine_parts::Core;
use crate::machine_scopes::going::reserve_next;
use gl_base::{Claim, ScopeId};
use scope_locks::scope_pipe::Next;

/// A scope that is moving on takes one lock after another that it wants here, where nobody claims
/// it and there is room for what it wants behind it. Says what it wants then.
#[inline(always)]
pub fn take_free(core: &mut Core, scope: ScopeId, next: Next) -> Next
    requires orderly { IsOrderlyBut (λ s. is_scope s scope) core.old }
    requires come { is_some (entered_at core.old.pipe scope) ≡ true }
    requires wants { Wants core.old scope next }
    requires room { HasNextRoom core.old scope next }
    ensures orderly { IsOrderlyBut (λ s. is_scope s scope) core.new }
    ensures come { is_some (entered_at core.new.pipe scope) ≡ true }
    ensures wants { Wants core.new scope result }
    ensures room { HasNextRoom core.new scope result }
    ensures settings { SameSettings core.old core.new }
    ensures taken { HasTakenOn core.old core.new scope }
    ensures rest { core.new ≡ record core.old {
      pipe = core.new.pipe;
      locks = core.new.locks;
      out = core.new.out;
    } }
{
    let mut next = next;
    for _ in 0..u64::MAX {
        match take_next(core, scope, next) {
            Some(after) => next = after,
            None => return next,
        }
    }
    next
}

/// It takes the lock that it wants, and says what it wants behind it.
#[inline(always)]
fn take_next(core: &mut Core, scope: ScopeId, next: Next) -> Option<Next>
    requires orderly { IsOrderlyBut (λ s. is_scope s scope) core.old }
    requires come { is_some (entered_at core.old.pipe scope) ≡ true }
    requires wants { Wants core.old scope next }
    requires room { HasNextRoom core.old scope next }
    ensures orderly { IsOrderlyBut (λ s. is_scope s scope) core.new }
    ensures come { is_some (entered_at core.new.pipe scope) ≡ true }
    ensures wants { Wants core.new scope (wanted_then next result) }
    ensures room { HasNextRoom core.new scope (wanted_then next result) }
    ensures settings { SameSettings core.old core.new }
    ensures taken { HasTakenOn core.old core.new scope }
    ensures rest { core.new ≡ record core.old {
      pipe = core.new.pipe;
      locks = core.new.locks;
      out = core.new.out;
    } }
{
    let Next::Lock(y, mode) = next else {
        return None;
    };
    let after = core.pipe.look_ahead(scope);
    if reserve_next(core, scope, after).is_err() {
        return None;
    }
    if !core.locks.take(y, Claim { scope, mode }) {
        return None;
    }
    core.pipe.advance(scope);
    Some(after)
}
