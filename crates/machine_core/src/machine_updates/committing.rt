//! Commits.
ghost use Rattle.std.specs.Prelude.{◌≡◌, ℕ, ◌==◌, Some, length, if◌then◌else◌};
ghost use Rattle.local_graph.specs.declared.works.Work.{Work};
ghost use Rattle.scope_locks.specs.scope_pipe.Pipes.{HasFinished};
ghost use Rattle.partition.specs.machine_numbers.Steps.{HasRun, HasUpdated, made_of};
ghost use Rattle.machine_core.specs.machine_parts.Parts.{place_at, is_own, links_at, sides_at};
ghost use Rattle.machine_core.specs.machine_parts.Order.{IsOrderly, KnowsPlaces};
ghost use Rattle.machine_core.specs.machine_parts.Settings.{Setting, IsPartOf};
ghost use Rattle.machine_core.specs.machine_updates.Works.{IsOut, IsApartFrom, HasItsRow};
ghost use Rattle.machine_core.specs.machine_updates.Reserving.{IsReserved};
ghost use Rattle.machine_core.specs.machine_updates.Committing.{HasNoLock, HasCommitted, done_told, after_told, entry_logged, machine_left, with_log_of};

use crate::lock_release::release_all;
use crate::machine_parts::Core;
use crate::machine_updates::reserving::Prepared;
use crate::machine_updates::telling::tell_all;
use gl_base::Entry;
use local_graph::Outcome;
use partition::machine_numbers::Spent;

/// Commits an update that was made: the other machines of the scope are told, its locks here are
/// released, it is in flight no more, and its numbers are kept under this ticket. It takes no
/// memory, and hands back the lists of the work and of the outcome.
pub fn commit(core: &mut Core, outcome: Outcome, prepared: Vec<Prepared>, ticket: u64) -> Spent
    requires orderly { IsOrderly core.old }
    requires out { IsOut core.old outcome.work }
    requires edges { length outcome.edges.items ≡ length
        (sides_at core.old.numbers.local outcome.work.vertex.0) }
    requires reserved { IsReserved core.old outcome.work.scope outcome.work.vertex prepared.items }
    ensures committed { HasCommitted core.old core.new outcome ticket }
    ensures whole { core.new ≡ with_log_of core.new (machine_left core.old outcome prepared.items) }
    ensures numbers { HasUpdated core.old.numbers core.new.numbers (made_of outcome)
        (entry_logged outcome ticket) }
    ensures finished { HasFinished core.old.pipe core.new.pipe outcome.work.scope }
    ensures released { HasNoLock core.old.locks core.new.locks outcome.work.scope }
    ensures told { core.new.out ≡ after_told (done_told core.old.numbers outcome)
        prepared.items core.old.out }
    ensures rows { (x : ℕ) →
        links_at core.new.numbers.local x ≡
        (if x == outcome.work.vertex.0 then Some outcome.work.row.links.items
        else links_at core.old.numbers.local x) }
    ensures others { (w : Work) → IsOut core.old w →
        IsApartFrom core.old outcome.work.vertex.0 w → IsOut core.new w }
    ensures local { let old = core.old.numbers.local in let new = core.new.numbers.local in
        new ≡ record old { kept = new.kept; rows = new.rows; numbers = new.numbers } }
    ensures own { (x : ℕ) → is_own core.new.numbers.local x ≡ is_own core.old.numbers.local x }
    ensures edges { length core.new.numbers.local.numbers ≡ length core.old.numbers.local.numbers }
    ensures ghosts { core.new.numbers.ghosts ≡ core.old.numbers.ghosts }
    ensures tasks { (k : ℕ) → place_at core.old.numbers.local outcome.work.vertex.0 ≡ Some k →
        HasRun core.old.numbers.tasks core.new.numbers.tasks k }
    ensures pipe { core.new.pipe ≡ record core.old.pipe {
      waiting = core.new.pipe.waiting;
      ready = core.new.pipe.ready;
    } }
    ensures rest { core.new ≡ record core.old {
      numbers = core.new.numbers;
      pipe = core.new.pipe;
      locks = core.new.locks;
      out = core.new.out;
    } }
    ensures orderly { IsOrderly core.new }
    ensures places { KnowsPlaces core.old → KnowsPlaces core.new }
    ensures settings { (st : Setting) → IsPartOf st core.old →
        HasItsRow st core.old outcome.work → IsPartOf st core.new }
    ensures spare { (result.edges ≡ outcome.work.row.numbers) × (result.near ≡ outcome.work.near) }
    ensures made { result.made ≡ outcome.edges }
    ensures links { result.links ≡ outcome.work.row.links }
{
    let scope = outcome.work.scope;
    let vertex = outcome.work.vertex;
    tell_all(&mut core.out, &core.numbers, &outcome, prepared);
    release_all(&mut core.locks, core.numbers.local.part(vertex), scope);
    core.pipe.finish(scope);
    let entry = Entry::Go {
        ticket,
        machine: scope.home,
        vertex,
    };
    core.numbers.finish(outcome, entry)
}
