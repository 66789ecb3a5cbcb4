//! How a scope goes on that has the locks that it asked for so far.
ghost use Rattle.std.specs.Prelude.{◌≡◌, ℕ, ◌≤◌, true, is_some, OnOk};
ghost use Rattle.machine_core.specs.machine_scopes.Granting.{SameSettings, HasOnlyMadeRoom};
ghost use Rattle.machine_core.specs.machine_scopes.Inner.Going.{IsOrderly, IsOrderlyBut, LeadsWithin, HasNextRoom, Wants, HasGoneOn, is_scope, entered_at, room_at};

use crate::machine_parts::Core;
use gl_base::{Claim, MachineNo, Mode, NoMemory, Peer, ScopeId, Vertex};
use scope_locks::scope_pipe::{Left, Next};
use wire::wire_msgs::Message;

/// Makes room for what a scope wants next.
#[inline(always)]
pub fn reserve_next(core: &mut Core, scope: ScopeId, next: Next) -> Result<(), NoMemory>
    requires { LeadsWithin core.old scope next }
    ensures room { OnOk result (HasNextRoom core.new scope next) }
    ensures same { HasOnlyMadeRoom core.old core.new }
    ensures locks { (y : ℕ) → room_at core.old.locks y ≤ room_at core.new.locks y }
    ensures rest { core.new ≡ record core.old { locks = core.new.locks; out = core.new.out } }
{
    match next {
        Next::Lock(y, _) => core.locks.reserve(y),
        Next::Forward(machine) => core.out.reserve(Peer::Machine(machine)),
        Next::Home => reserve_home(core, scope),
    }
}

/// Makes room for word to the home of a scope, where that is another machine.
fn reserve_home(core: &mut Core, scope: ScopeId) -> Result<(), NoMemory>
    requires { LeadsWithin core.old scope Next.Home }
    ensures room { OnOk result (HasNextRoom core.new scope Next.Home) }
    ensures same { HasOnlyMadeRoom core.old core.new }
    ensures locks { core.new.locks ≡ core.old.locks }
    ensures rest { core.new ≡ record core.old { locks = core.new.locks; out = core.new.out } }
{
    if scope.home.0 == core.numbers.local.me().0 {
        Ok(())
    } else {
        core.out.reserve(Peer::Machine(scope.home))
    }
}

/// A scope that is moving on asks for its next lock here, or goes on to the next machine or home.
#[inline(always)]
pub fn go_on(core: &mut Core, scope: ScopeId, next: Next)
    requires orderly { IsOrderlyBut (λ s. is_scope s scope) core.old }
    requires come { is_some (entered_at core.old.pipe scope) ≡ true }
    requires wants { Wants core.old scope next }
    requires room { HasNextRoom core.old scope next }
    ensures orderly { IsOrderly core.new }
    ensures settings { SameSettings core.old core.new }
    ensures went { HasGoneOn core.old core.new scope }
    ensures rest { core.new ≡ record core.old {
      pipe = core.new.pipe;
      locks = core.new.locks;
      out = core.new.out;
      spare = core.new.spare;
    } }
{
    match next {
        Next::Lock(y, mode) => ask_for(core, scope, y, mode),
        Next::Forward(machine) => go_away(core, scope, machine),
        Next::Home => go_home(core, scope),
    }
}

/// It asks for the lock of a vertex here.
#[inline(always)]
fn ask_for(core: &mut Core, scope: ScopeId, y: Vertex, mode: Mode)
    requires orderly { IsOrderlyBut (λ s. is_scope s scope) core.old }
    requires come { is_some (entered_at core.old.pipe scope) ≡ true }
    requires wants { Wants core.old scope (Next.Lock y mode) }
    requires room { HasNextRoom core.old scope (Next.Lock y mode) }
    ensures orderly { IsOrderly core.new }
    ensures settings { SameSettings core.old core.new }
    ensures went { HasGoneOn core.old core.new scope }
    ensures rest { core.new ≡ record core.old {
      pipe = core.new.pipe;
      locks = core.new.locks;
      out = core.new.out;
      spare = core.new.spare;
    } }
{
    core.pipe.advance(scope);
    core.locks.request(y, Claim { scope, mode });
}

/// It goes on to another machine, which it asks for its locks there.
fn go_away(core: &mut Core, scope: ScopeId, to: MachineNo)
    requires orderly { IsOrderlyBut (λ s. is_scope s scope) core.old }
    requires come { is_some (entered_at core.old.pipe scope) ≡ true }
    requires wants { Wants core.old scope (Next.Forward to) }
    requires room { HasNextRoom core.old scope (Next.Forward to) }
    ensures orderly { IsOrderly core.new }
    ensures settings { SameSettings core.old core.new }
    ensures went { HasGoneOn core.old core.new scope }
    ensures rest { core.new ≡ record core.old {
      pipe = core.new.pipe;
      locks = core.new.locks;
      out = core.new.out;
      spare = core.new.spare;
    } }
{
    let Left {
        centre,
        part,
        mut rest,
    } = core.pipe.leave(scope);
    core.spare.keep(part);
    rest.remove(0);
    core.out.put(
        Peer::Machine(to),
        Message::Ask {
            scope,
            centre,
            rest,
        },
    );
}

/// It has all its locks: it is ready here, or word of that goes to its home.
fn go_home(core: &mut Core, scope: ScopeId)
    requires orderly { IsOrderlyBut (λ s. is_scope s scope) core.old }
    requires come { is_some (entered_at core.old.pipe scope) ≡ true }
    requires wants { Wants core.old scope Next.Home }
    requires room { HasNextRoom core.old scope Next.Home }
    ensures orderly { IsOrderly core.new }
    ensures settings { SameSettings core.old core.new }
    ensures went { HasGoneOn core.old core.new scope }
    ensures rest { core.new ≡ record core.old {
      pipe = core.new.pipe;
      locks = core.new.locks;
      out = core.new.out;
      spare = core.new.spare;
    } }
{
    let me = core.numbers.local.me();
    let Left { part, .. } = core.pipe.leave(scope);
    core.spare.keep(part);
    if scope.home.0 == me.0 {
        core.pipe.ready(scope);
    } else {
        core.out
            .put(Peer::Machine(scope.home), Message::Ready { scope });
    }
}
