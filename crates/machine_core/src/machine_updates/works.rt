//! Works: ready scopes are taken out for their updates, and put back where none is made.
ghost use Rattle.std.specs.Prelude.{◌≡◌, ◌≢◌, ℕ, ◌==◌, None, Some, length, if◌then◌else◌};
ghost use Rattle.local_graph.specs.declared.works.Work.{Work};
ghost use Rattle.partition.specs.machine_numbers.Steps.{HasRoom};
ghost use Rattle.machine_core.specs.machine_parts.Parts.{links_at, sides_at, part_of};
ghost use Rattle.machine_core.specs.machine_parts.Order.{IsOrderly, KnowsPlaces};
ghost use Rattle.machine_core.specs.machine_parts.Settings.{Setting, IsPartOf, SameSettings};
ghost use Rattle.machine_core.specs.machine_updates.Works.{IsOut, CanBeTaken, HasItsRow};

use crate::machine_parts::Core;
use local_graph::Work;
use partition::machine_numbers::ScratchBuffers;
use scope_locks::scope_pipe::Flight;

/// Takes out a scope that is ready for an ordinary update, with its row and the numbers that the
/// update may use. The lists of `spare` have room for them, so it takes no memory.
pub fn take_work(core: &mut Core, flight: Flight, spare: ScratchBuffers) -> Work
    requires orderly { IsOrderly core.old }
    requires can { CanBeTaken core.old flight.scope flight.centre }
    requires room { HasRoom spare (length (sides_at core.old.numbers.local flight.centre.0)) }
    ensures scope { (result.scope ≡ flight.scope) × (result.vertex ≡ flight.centre) }
    ensures out { IsOut core.new result }
    ensures links { links_at core.old.numbers.local flight.centre.0 ≡ Some result.row.links.items }
    ensures row { (st : Setting) → IsPartOf st core.old → HasItsRow st core.new result }
    ensures others { (w : Work) → IsOut core.old w → IsOut core.new w }
    ensures rows { (x : ℕ) →
        links_at core.new.numbers.local x ≡ (if x == flight.centre.0 then None
        else links_at core.old.numbers.local x) }
    ensures part { part_of core.new ≡ part_of core.old }
    ensures orderly { IsOrderly core.new }
    ensures places { KnowsPlaces core.old → KnowsPlaces core.new }
    ensures settings { SameSettings core.old core.new }
    ensures rest { core.new ≡
        record core.old {
          numbers = record core.old.numbers {
            local = record core.old.numbers.local { rows = core.new.numbers.local.rows };
          };
        } }
{
    core.numbers.take_work(flight.scope, flight.centre, spare)
}

/// Puts back a work of which no update was made: no number changes, and its scope may be taken
/// again. It takes no memory, and hands back the lists of the work.
pub fn put_back(core: &mut Core, work: Work) -> ScratchBuffers
    requires orderly { IsOrderly core.old }
    requires out { IsOut core.old work }
    ensures rows { (x : ℕ) →
        links_at core.new.numbers.local x ≡ (if x == work.vertex.0 then Some work.row.links.items
        else links_at core.old.numbers.local x) }
    ensures others { (w : Work) → IsOut core.old w → w.vertex.0 ≢ work.vertex.0 → IsOut core.new w }
    ensures part { part_of core.new ≡ part_of core.old }
    ensures orderly { IsOrderly core.new }
    ensures places { KnowsPlaces core.old → KnowsPlaces core.new }
    ensures settings { (st : Setting) → IsPartOf st core.old →
        HasItsRow st core.old work → IsPartOf st core.new }
    ensures rest { core.new ≡
        record core.old {
          numbers = record core.old.numbers {
            local = record core.old.numbers.local {
              rows = core.new.numbers.local.rows;
              numbers = core.new.numbers.local.numbers;
            };
          };
        } }
    ensures spare { (result.edges ≡ work.row.numbers) × (result.near ≡ work.near) }
    ensures links { result.links ≡ work.row.links }
{
    core.numbers.put_back(work)
}
