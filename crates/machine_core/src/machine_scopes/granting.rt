//! Granting locks.
ghost use Rattle.std.specs.Prelude.{◌≡◌, ℕ, true, IfOk, IfErr, IfSome, IfNone, OnErr, IsErrOf};
ghost use Rattle.machine_core.specs.machine_scopes.Granting.{IsOrderly, SameSettings, HasOnlyMadeRoom, MayGrantLock, MayNotGrantLock, HasGrantedInTurn, HasGrantedLock, WaitsFirst, WantedNext, IsNext, WaitOnce, part_of, is_owned, holder_at, queue_at};

use crate::machine_parts::Core;
use crate::machine_scopes::going::{go_on, reserve_next};
use crate::machine_scopes::taking::take_free;
use gl_base::{Claim, Refused, ScopeId, Vertex};
use scope_locks::scope_pipe::Next;
use scope_locks::vertex_locks::Turn;

/// A scope that got a lock, and what it went on to: the lock of another vertex here, the next
/// machine, or home.
#[derive(Clone, Copy)]
pub struct Moved {
    pub scope: ScopeId,
    pub next: Next,
}

/// The first that waits for the lock of x holds it and goes on, where it goes together with each
/// holder: it asks for the next lock of its scope here, or leaves.
#[inline(always)]
pub fn grant(core: &mut Core, x: Vertex) -> Result<Moved, Refused>
    requires { IsOrderly core.old }
    ensures orderly { IsOrderly core.new }
    ensures settings { SameSettings core.old core.new }
    ensures granted { IfOk result (λ moved. MayGrantLock core.old x.0 ×
        HasGrantedLock core.old core.new x.0) }
    ensures scope { IfOk result (λ moved. WaitsFirst core.old x.0 moved.scope) }
    ensures next { IfOk result (λ moved. WantedNext core.old moved.scope moved.next) }
    ensures not_now { IsErrOf result Refused.NotNow → MayNotGrantLock core.old x.0 }
    ensures no_memory { IsErrOf result Refused.NoMemory → MayGrantLock core.old x.0 }
    ensures rest { core.new ≡ record core.old {
      pipe = core.new.pipe;
      locks = core.new.locks;
      out = core.new.out;
      spare = core.new.spare;
    } }
    ensures unchanged { OnErr result (HasOnlyMadeRoom core.old core.new ×
        (part_of core.new ≡ part_of core.old)) }
{
    if !core.locks.owns(x) {
        return Err(Refused::NotNow);
    }
    match core.locks.look(x) {
        Turn::Granted(claim) => grant_first(core, x, claim),
        Turn::Waiting => Err(Refused::NotNow),
    }
}

/// The first that waits for the lock of x holds it, where it goes together with each holder, and
/// goes on; and then it is granted one lock after another for which it asks here, where nobody else
/// claims that.
pub fn grant_in_turn(core: &mut Core, x: Vertex) -> Result<ScopeId, Refused>
    requires { IsOrderly core.old }
    ensures orderly { IsOrderly core.new }
    ensures settings { SameSettings core.old core.new }
    ensures granted { IfOk result (λ scope. HasGrantedInTurn core.old core.new x.0) }
    ensures scope { IfOk result (λ scope. WaitsFirst core.old x.0 scope) }
    ensures not_now { IsErrOf result Refused.NotNow → MayNotGrantLock core.old x.0 }
    ensures no_memory { IsErrOf result Refused.NoMemory → MayGrantLock core.old x.0 }
    ensures rest { core.new ≡ record core.old {
      pipe = core.new.pipe;
      locks = core.new.locks;
      out = core.new.out;
      spare = core.new.spare;
    } }
    ensures unchanged { OnErr result (HasOnlyMadeRoom core.old core.new ×
        (part_of core.new ≡ part_of core.old)) }
{
    if !core.locks.owns(x) {
        return Err(Refused::NotNow);
    }
    match core.locks.look(x) {
        Turn::Granted(claim) => grant_from(core, x, claim),
        Turn::Waiting => Err(Refused::NotNow),
    }
}

/// A vertex whose lock may be granted, and `None` exactly where there is none. It takes no memory,
/// and no claim changes.
#[inline(always)]
pub fn next_grant(core: &mut Core) -> Option<Vertex>
    requires { IsOrderly core.old }
    ensures some { IfSome result (λ x. MayGrantLock core.old x.0) }
    ensures none { IfNone result ((x : ℕ) → MayNotGrantLock core.old x) }
    ensures same { core.new ≡ core.old }
{
    core.locks.next_grant()
}

/// The first that waits for the lock of x, which goes together with each holder, holds it and goes
/// on.
#[inline(always)]
fn grant_first(core: &mut Core, x: Vertex, claim: Claim) -> Result<Moved, Refused>
    requires orderly { IsOrderly core.old }
    requires owned { is_owned core.old.locks x.0 ≡ true }
    requires first { IsNext (holder_at core.old.locks x.0) (queue_at core.old.locks x.0) claim }
    requires once { WaitOnce (holder_at core.old.locks x.0) (queue_at core.old.locks x.0) }
    ensures orderly { IsOrderly core.new }
    ensures settings { SameSettings core.old core.new }
    ensures granted { IfOk result (λ moved. HasGrantedLock core.old core.new x.0) }
    ensures scope { IfOk result (λ moved. moved.scope ≡ claim.scope) }
    ensures next { IfOk result (λ moved. WantedNext core.old claim.scope moved.next) }
    ensures refused { IfErr result (λ e. e ≡ Refused.NoMemory) }
    ensures rest { core.new ≡ record core.old {
      pipe = core.new.pipe;
      locks = core.new.locks;
      out = core.new.out;
      spare = core.new.spare;
    } }
    ensures unchanged { OnErr result (HasOnlyMadeRoom core.old core.new) }
{
    let next = core.pipe.look(claim.scope);
    if reserve_next(core, claim.scope, next).is_err() {
        return Err(Refused::NoMemory);
    }
    let _ = core.locks.grant(x);
    go_on(core, claim.scope, next);
    Ok(Moved {
        scope: claim.scope,
        next,
    })
}

/// The first that waits for the lock of x, which goes together with each holder, holds it and goes
/// on, through one lock after another that nobody claims.
#[inline(always)]
fn grant_from(core: &mut Core, x: Vertex, claim: Claim) -> Result<ScopeId, Refused>
    requires orderly { IsOrderly core.old }
    requires owned { is_owned core.old.locks x.0 ≡ true }
    requires first { IsNext (holder_at core.old.locks x.0) (queue_at core.old.locks x.0) claim }
    requires once { WaitOnce (holder_at core.old.locks x.0) (queue_at core.old.locks x.0) }
    ensures orderly { IsOrderly core.new }
    ensures settings { SameSettings core.old core.new }
    ensures granted { IfOk result (λ scope. HasGrantedInTurn core.old core.new x.0) }
    ensures scope { IfOk result (λ scope. scope ≡ claim.scope) }
    ensures refused { IfErr result (λ e. e ≡ Refused.NoMemory) }
    ensures rest { core.new ≡ record core.old {
      pipe = core.new.pipe;
      locks = core.new.locks;
      out = core.new.out;
      spare = core.new.spare;
    } }
    ensures unchanged { OnErr result (HasOnlyMadeRoom core.old core.new) }
{
    let next = core.pipe.look(claim.scope);
    if reserve_next(core, claim.scope, next).is_err() {
        return Err(Refused::NoMemory);
    }
    let _ = core.locks.grant(x);
    let next = take_free(core, claim.scope, next);
    go_on(core, claim.scope, next);
    Ok(claim.scope)
}
