//! Scopes that come to a machine.
ghost use Rattle.std.specs.Prelude.{◌≡◌, ◌<◌, true, false, slice_get, IfErr, OnOk, OnErr};
ghost use Rattle.machine_core.specs.machine_scopes.Asking.{IsOrderly, SameSettings, HasOnlyMadeRoom, IsNewAt, AreMachinesFor, HasReceivedMessage, Ask, come, part_of, part_at, machine_numbers, is_ready};
ghost use Rattle.machine_core.specs.machine_scopes.Inner.Going.{HasNextRoom, mode_at, next_at};

use crate::machine_parts::Core;
use crate::machine_scopes::going::{go_on, reserve_next};
use gl_base::{MachineNo, Mode, ScopeId, Vertex};
use scope_locks::scope_pipe::Next;
use std::alloc::Global;

/// The scope of this centre has come, and has the machines `rest` still to come: it asks for its
/// locks here, or goes on at once where there is none. Scopes take locks at the machine. Where
/// there is not enough memory, or as many scopes have come as may,
/// `rest` comes back.
pub fn receive_ask(
    alloc: Global,
    core: &mut Core,
    scope: ScopeId,
    centre: Vertex,
    rest: Vec<MachineNo>,
) -> Result<(), Vec<MachineNo>>
    requires orderly { IsOrderly core.old }
    requires locks { core.old.terms.locks ≡ true }
    requires is_new { IsNewAt core.old scope centre }
    requires machines { AreMachinesFor core.old scope rest.items }
    ensures orderly { IsOrderly core.new }
    ensures settings { SameSettings core.old core.new }
    ensures place { OnOk result (come core.old.pipe < 4096) }
    ensures received { OnOk result
        (HasReceivedMessage core.old core.new (Ask scope centre.0 (machine_numbers rest.items))) }
    ensures back { IfErr result (λ same. same ≡ rest) }
    ensures rest { core.new ≡ record core.old {
      pipe = core.new.pipe;
      locks = core.new.locks;
      out = core.new.out;
      spare = core.new.spare;
    } }
    ensures unchanged { OnErr result (HasOnlyMadeRoom core.old core.new ×
        (part_of core.new ≡ part_of core.old)) }
{
    if !core.pipe.has_place() {
        return Err(rest);
    }
    let Ok(part) = core.spare.copy(alloc, core.numbers.local.part(centre)) else {
        return Err(rest);
    };
    let next = wants_first(centre, &part, &rest);
    if reserve_next(core, scope, next).is_err() {
        return Err(rest);
    }
    come_here(core, scope, centre, part, rest, next);
    Ok(())
}

/// The scope, which isn't ready, comes, where there is room for what it wants first, and goes on.
pub fn come_here(
    core: &mut Core,
    scope: ScopeId,
    centre: Vertex,
    part: Vec<Vertex>,
    rest: Vec<MachineNo>,
    next: Next,
)
    requires orderly { IsOrderly core.old }
    requires is_new { IsNewAt core.old scope centre }
    requires waits { is_ready core.old.pipe scope ≡ false }
    requires machines { AreMachinesFor core.old scope rest.items }
    requires few { come core.old.pipe < 4096 }
    requires part { part.items ≡ part_at core.old.numbers.local centre.0 }
    requires next { next ≡ next_at centre (slice_get part.items 0) rest.items }
    requires room { HasNextRoom core.old scope next }
    ensures orderly { IsOrderly core.new }
    ensures settings { SameSettings core.old core.new }
    ensures received { HasReceivedMessage core.old core.new
        (Ask scope centre.0 (machine_numbers rest.items)) }
    ensures rest { core.new ≡ record core.old {
      pipe = core.new.pipe;
      locks = core.new.locks;
      out = core.new.out;
      spare = core.new.spare;
    } }
{
    core.pipe.enter(scope, centre, part, rest);
    go_on(core, scope, next);
}

/// What a scope of this centre wants first at a machine with these vertices of it.
pub fn wants_first(centre: Vertex, part: &[Vertex], rest: &[MachineNo]) -> Next
    ensures { result ≡ next_at centre (slice_get part.now 0) rest.now }
{
    match (part.first(), rest.first()) {
        (Some(vertex), _) => Next::Lock(*vertex, mode_for(centre, *vertex)),
        (None, Some(machine)) => Next::Forward(*machine),
        (None, None) => Next::Home,
    }
}

/// How the scope of this centre locks a vertex.
fn mode_for(centre: Vertex, vertex: Vertex) -> Mode
    ensures { result ≡ mode_at centre.0 vertex.0 }
{
    if vertex.0 == centre.0 {
        Mode::Writer
    } else {
        Mode::Reader
    }
}
