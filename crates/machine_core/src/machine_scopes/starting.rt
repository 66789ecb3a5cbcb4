//! How new scopes set out.
ghost use Rattle.std.specs.Prelude.{◌≡◌, ◌<◌, ◌∷◌, ℕ, true, false, length, IfOk, OnOk};
ghost use Rattle.machine_core.specs.machine_scopes.Asking.{IsOrderly, SameSettings, HasOnlyMadeRoom, IsNewAt, is_ready};
ghost use Rattle.machine_core.specs.machine_scopes.Inner.Setting.{IsGraphInOrder, CanSetOut, HasSetOut, is_own, is_owned, parts_at};

use crate::machine_parts::Core;
use crate::machine_scopes::asking::{come_here, wants_first};
use crate::machine_scopes::going::reserve_next;
use gl_base::{MachineNo, NoMemory, Peer, ScopeId, Vertex};
use scope_locks::scope_pipe::Next;
use std::alloc::Global;
use wire::wire_msgs::Message;

/// What a new scope sets out with.
#[derive(Drop)]
pub enum Start {
    /// It comes here at once, with its vertices here and the machines still to come, and wants this
    /// first.
    Here {
        part: Vec<Vertex>,
        rest: Vec<MachineNo>,
        next: Next,
    },
    /// It asks for its locks at another machine, and has these still to come.
    Away {
        first: MachineNo,
        rest: Vec<MachineNo>,
    },
}

/// What a new scope of v sets out with, and room for it. There is none where no serial is left for
/// it, or where it would come here at once and as many have come as may.
pub fn prepare(alloc: Global, core: &mut Core, scope: ScopeId, v: Vertex) -> Result<Start, NoMemory>
    requires own { is_own core.old.numbers.local v.0 ≡ true }
    requires graph { IsGraphInOrder core.old.numbers.local (length core.old.out.machines) }
    requires locks { (x : ℕ) → is_owned core.old.locks x ≡ is_own core.old.numbers.local x }
    requires home { scope.home.0 < length core.old.out.machines }
    ensures can { IfOk result (λ start. CanSetOut core.new scope v start) }
    ensures serial { OnOk result (core.old.pipe.serial < 18446744073709551615) }
    ensures same { HasOnlyMadeRoom core.old core.new }
    ensures rest { core.new ≡ record core.old {
      locks = core.new.locks;
      out = core.new.out;
      spare = core.new.spare;
    } }
{
    if !core.pipe.has_serial() {
        return Err(NoMemory);
    }
    let me = core.numbers.local.me();
    let parts = core.numbers.local.parts(v);
    let first = parts[0];
    let rest = Vec::from_slice(alloc, &parts[1..])?;
    if first.0 == me.0 {
        prepare_here(alloc, core, scope, v, rest)
    } else {
        core.out.reserve(Peer::Machine(first))?;
        Ok(Start::Away { first, rest })
    }
}

/// The same, where this machine is the first of the scope.
fn prepare_here(
    alloc: Global,
    core: &mut Core,
    scope: ScopeId,
    v: Vertex,
    rest: Vec<MachineNo>,
) -> Result<Start, NoMemory>
    requires graph { IsGraphInOrder core.old.numbers.local (length core.old.out.machines) }
    requires own { is_own core.old.numbers.local v.0 ≡ true }
    requires locks { (x : ℕ) → is_owned core.old.locks x ≡ is_own core.old.numbers.local x }
    requires home { scope.home.0 < length core.old.out.machines }
    requires machines { parts_at core.old.numbers.local v.0 ≡
        core.old.numbers.local.me ∷ rest.items }
    ensures can { IfOk result (λ start. CanSetOut core.new scope v start) }
    ensures same { HasOnlyMadeRoom core.old core.new }
    ensures rest { core.new ≡ record core.old {
      locks = core.new.locks;
      out = core.new.out;
      spare = core.new.spare;
    } }
{
    if !core.pipe.has_place() {
        return Err(NoMemory);
    }
    let part = core.spare.copy(alloc, core.numbers.local.part(v))?;
    let next = wants_first(v, &part, &rest);
    reserve_next(core, scope, next)?;
    Ok(Start::Here { part, rest, next })
}

/// A new scope of v, which isn't ready, sets out.
pub fn set_out(core: &mut Core, scope: ScopeId, v: Vertex, start: Start)
    requires orderly { IsOrderly core.old }
    requires is_new { IsNewAt core.old scope v }
    requires waits { is_ready core.old.pipe scope ≡ false }
    requires own { is_own core.old.numbers.local v.0 ≡ true }
    requires home { scope.home.0 < length core.old.out.machines }
    requires can { CanSetOut core.old scope v start }
    ensures orderly { IsOrderly core.new }
    ensures settings { SameSettings core.old core.new }
    ensures set_out { HasSetOut core.old core.new scope v }
    ensures rest { core.new ≡ record core.old {
      pipe = core.new.pipe;
      locks = core.new.locks;
      out = core.new.out;
      spare = core.new.spare;
    } }
{
    match start {
        Start::Here { part, rest, next } => come_here(core, scope, v, part, rest, next),
        Start::Away { first, rest } => core.out.put(
            Peer::Machine(first),
            Message::Ask {
                scope,
                centre: v,
                rest,
            },
        ),
    }
}
