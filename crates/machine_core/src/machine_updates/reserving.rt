//! Room for a commit.
ghost use Rattle.std.specs.Prelude.{◌≡◌, ◌≢◌, ℕ, ◌<◌, ◌==◌, ◌&&◌, true, not, Some, is_some, length, vec_len, vec_capacity, IfOk, OnOk};
ghost use Rattle.std.specs.List.{All, AllPairs, list_any};
ghost use Rattle.gl_base.specs.declared.scopes.Peer.TheVariants.{Machine};
ghost use Rattle.partition.specs.machine_numbers.Steps.{IsBlank};
ghost use Rattle.wire.specs.outboxes.Outboxes.{outbox_to};
ghost use Rattle.machine_core.specs.machine_parts.Parts.{flight_at, sides_at, part_of};
ghost use Rattle.machine_core.specs.machine_parts.Order.{IsOrderly, KnowsPlaces};
ghost use Rattle.machine_core.specs.machine_parts.Settings.{SameSettings};
ghost use Rattle.machine_core.specs.machine_parts.Rooms.{HasOnlyMadeRoom, HaveSameMessages};
ghost use Rattle.machine_core.specs.machine_updates.Reserving.{CanTell, is_to_be_told, HasRoomToTell, IsReserved};

use crate::machine_parts::Core;
use gl_base::{Entry, MachineNo, NoMemory, Peer, ScopeId, Vertex};
use partition::machine_numbers::blank_done;
use scope_locks::scope_pipe::Flight;
use std::alloc::Global;
use wire::outboxes::Outboxes;
use wire::wire_msgs::Done;

/// As many updates may be in a log.
const MAX_LOG: usize = 4294967295;

/// What another machine of a scope will be told of its update, with room for it.
#[derive(Drop)]
pub struct Prepared {
    pub to: MachineNo,
    pub done: Done,
}

/// Makes room for the commit of a scope in flight: in the log, and for what each other machine of
/// it will be told, which it hands out. Where no other machine takes part, nothing is made but room
/// in the log. It is want of memory too where the log has as many updates as it may, or the version
/// of the scope's vertex can't count one more.
pub fn reserve_commit(
    alloc: Global,
    core: &mut Core,
    scope: ScopeId,
) -> Result<Vec<Prepared>, NoMemory>
    requires orderly { IsOrderly core.old }
    requires flies { is_some (flight_at core.old.pipe scope) ≡ true }
    ensures reserved { IfOk result (λ ps. (v : Vertex) → flight_at core.old.pipe scope ≡ Some v →
        IsReserved core.new scope v ps.items) }
    ensures same { HasOnlyMadeRoom core.old core.new }
    ensures part { part_of core.new ≡ part_of core.old }
    ensures orderly { IsOrderly core.new }
    ensures places { KnowsPlaces core.old → KnowsPlaces core.new }
    ensures settings { SameSettings core.old core.new }
{
    let v = core.pipe.centre(scope);
    let version = core.numbers.datum(v).version;
    reserve_log(&mut core.numbers.log, version)?;
    let local = &core.numbers.local;
    let degree = local.sides(v).len();
    let flight = Flight { scope, centre: v };
    prepare(
        alloc,
        &mut core.out,
        flight,
        local.parts(v),
        local.me(),
        degree,
    )
}

/// Makes room for one entry more, of an update of a vertex with this version. It is want of memory
/// too where the log has as many updates as it may, or the version can't count one more.
pub fn reserve_log(log: &mut Vec<Entry>, version: u32) -> Result<(), NoMemory>
    ensures room { OnOk result (vec_len log.new < vec_capacity log.new) }
    ensures few { OnOk result (length log.new.items < 4294967295) }
    ensures version { OnOk result (version < 4294967295) }
    ensures items { log.new.items ≡ log.old.items }
{
    if log.len() >= MAX_LOG || version == u32::MAX {
        return Err(NoMemory);
    }
    log.reserve(1)?;
    Ok(())
}

/// Makes room for what each of these machines but `me` will be told of the update of a scope, whose
/// vertex has so many edges, and hands it out.
pub fn prepare(
    alloc: Global,
    out: &mut Outboxes,
    flight: Flight,
    parts: &[MachineNo],
    me: MachineNo,
    degree: usize,
) -> Result<Vec<Prepared>, NoMemory>
    requires machines { All (λ b. b.0 < length out.old.machines) parts.now }
    requires apart { AllPairs (λ one other. one.0 ≢ other.0) parts.now }
    ensures can { IfOk result (λ ps. CanTell out.new flight.scope flight.centre degree ps.items) }
    ensures told { IfOk result (λ ps. (q : ℕ) →
        is_to_be_told ps.items q ≡ (list_any (λ b. b.0 == q) parts.now && not (q == me.0))) }
    ensures same { HaveSameMessages out.old out.new }
{
    let mut prepared = Vec::new(alloc);
    for place in 0..parts.len() {
        let to = parts[place];
        if to.0 != me.0 {
            prepared.push(prepare_one(alloc, out, flight, to, degree)?)?;
        }
    }
    Ok(prepared)
}

fn prepare_one(
    alloc: Global,
    out: &mut Outboxes,
    flight: Flight,
    to: MachineNo,
    degree: usize,
) -> Result<Prepared, NoMemory>
    requires { to.0 < length out.old.machines }
    ensures to { IfOk result (λ p. p.to ≡ to) }
    ensures blank { IfOk result (λ p. IsBlank p.done flight.scope flight.centre degree) }
    ensures room { OnOk result (HasRoomToTell out.new to) }
    ensures same { HaveSameMessages out.old out.new }
    ensures others { (b : MachineNo) → b.0 ≢ to.0 →
        outbox_to out.new (Machine b) ≡ outbox_to out.old (Machine b) }
{
    out.reserve(Peer::Machine(to))?;
    let done = blank_done(alloc, flight.scope, flight.centre, degree)?;
    Ok(Prepared { to, done })
}
