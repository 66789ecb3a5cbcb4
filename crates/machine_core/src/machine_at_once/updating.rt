//! Updates at once.
ghost use Rattle.std.specs.Prelude.{◌≡◌, ℕ, IfOk, OnErr, OnOk, IsErrOf};
ghost use Rattle.machine_core.specs.machine_at_once.Picks.{CanNotUpdatePick, CanUpdatePick, HasEachRow, HasNoneAtOnce, HasRunAtOnce, HasUpdatedPick, IsOrderly, KnowsPlaces, SameSettings, datum_here, is_own, links_at, part_of};

use crate::machine_at_once::finding::find;
use crate::machine_at_once::making::{Stamp, make};
use crate::machine_parts::Core;
use crate::machine_updates::Spares;
use gl_base::{NoMemory, Refused, Vertex};
use std::alloc::Global;
use update_api::Program;

/// Updates the vertex that the tasks pick, where it is not pending, its scope has this machine
/// alone, and nobody holds or waits for a lock of it: as if a scope of it were admitted, took each
/// lock in turn and made its update. It touches no lock and sends no message. It is logged under
/// the ticket. A log that holds as many updates as it may is want of memory too, and so is it that
/// the version of the vertex can't count one more, or that no serial is left.
#[tactic(auto, using(crate::proofs::machine_at_once::Scopes::can_update))]
pub fn update_at_once<P: Program>(
    alloc: Global,
    core: &mut Core,
    spares: &mut Spares,
    program: &P,
    ticket: u64,
) -> Result<Vertex, Refused>
    requires orderly { IsOrderly core.old }
    requires places { KnowsPlaces core.old }
    requires rows { HasEachRow core.old.numbers.local }
    ensures updated { IfOk result (λ v.
        HasUpdatedPick (P.meaning program.now) core.old core.new v ticket) }
    ensures run { OnOk result (HasRunAtOnce core.old.numbers.tasks core.new.numbers.tasks) }
    ensures not_now { IsErrOf result Refused.NotNow → CanNotUpdatePick core.old }
    ensures refused { IsErrOf result Refused.NotNow → HasNoneAtOnce core.old }
    ensures no_memory { IsErrOf result Refused.NoMemory → CanUpdatePick core.old }
    ensures same { IsErrOf result Refused.NotNow → core.new ≡ core.old }
    ensures unchanged { OnErr result (part_of core.new ≡ part_of core.old) }
    ensures tasks { OnErr result (core.new.numbers.tasks ≡ core.old.numbers.tasks) }
    ensures rows { HasEachRow core.new.numbers.local }
    ensures own { (x : ℕ) → is_own core.new.numbers.local x ≡ is_own core.old.numbers.local x }
    ensures marks { (x : ℕ) →
        (datum_here core.new.numbers x).mark ≡ (datum_here core.old.numbers x).mark }
    ensures local { let old = core.old.numbers.local in let new = core.new.numbers.local in
        new ≡ record old { kept = new.kept; rows = new.rows; numbers = new.numbers } }
    ensures links { (x : ℕ) →
        links_at core.new.numbers.local x ≡ links_at core.old.numbers.local x }
    ensures orderly { IsOrderly core.new }
    ensures places { KnowsPlaces core.new }
    ensures settings { SameSettings core.old core.new }
    ensures pipe { core.new.pipe ≡ record core.old.pipe { serial = core.new.pipe.serial } }
    ensures rest { core.new ≡ record core.old { numbers = core.new.numbers; pipe = core.new.pipe } }
{
    let Some(found) = find(core) else {
        return Err(Refused::NotNow);
    };
    if !core.pipe.has_serial() {
        return Err(Refused::NoMemory);
    }
    let scope = core.pipe.next_id();
    let stamp = Stamp { scope, ticket };
    match make(alloc, &mut core.numbers, spares, program, found, stamp) {
        Ok(()) => {
            core.pipe.pass();
            Ok(found.vertex)
        }
        Err(NoMemory) => Err(Refused::NoMemory),
    }
}

/// What an update at once is refused with, where memory is wanting for what is kept beside it.
pub fn refusal(core: &Core) -> Refused
    requires orderly { IsOrderly core.now }
    requires places { KnowsPlaces core.now }
    ensures not_now { result ≡ Refused.NotNow → HasNoneAtOnce core.now }
    ensures no_memory { result ≡ Refused.NoMemory → CanUpdatePick core.now }
{
    match find(core) {
        Some(_) => Refused::NoMemory,
        None => Refused::NotNow,
    }
}
