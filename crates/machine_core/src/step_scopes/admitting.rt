//! Admitting scopes in a step.
ghost use Rattle.std.specs.Prelude.{◌≡◌, ◌↔◌, false, IfOk, IsOk, OnErr};
ghost use Rattle.machine_core.specs.step_scopes.Admitting.{IsOrderly, KnowsPlaces, SameSettings, CanTake, HasPlaceInFlight, HasAdmittedInStep, IsAdmittedThere, next_id};

use crate::machine_parts::Core;
use gl_base::{NoMemory, ScopeId, Vertex};
use task_sets::task_sched::TaskSet;

/// Admits a scope of the own vertex at this place, for its snapshot update or else for an update,
/// where scopes take no locks: it is ready at once. It takes no memory; there is none for it
/// exactly where no serial is left, or as many scopes are in flight as may be.
pub fn admit_in_step(core: &mut Core, place: Vertex, snapshot: bool) -> Result<ScopeId, NoMemory>
    requires orderly { IsOrderly core.old }
    requires places { KnowsPlaces core.old }
    requires locks { core.old.terms.locks ≡ false }
    requires can { CanTake core.old.numbers.tasks (record { vertex = place; snapshot = snapshot }) }
    ensures orderly { IsOrderly core.new }
    ensures places { KnowsPlaces core.new }
    ensures settings { SameSettings core.old core.new }
    ensures room { IsOk result ↔ HasPlaceInFlight core.old }
    ensures scope { IfOk result (λ s. s ≡ next_id core.old.pipe) }
    ensures admitted { IfOk result (λ s. HasAdmittedInStep core.old core.new place snapshot) }
    ensures unchanged { OnErr result (core.new ≡ core.old) }
    ensures local { core.new.numbers.local ≡ core.old.numbers.local }
    ensures rest { core.new ≡ record core.old { numbers = core.new.numbers; pipe = core.new.pipe } }
{
    if !core.pipe.has_serial() || core.pipe.flight_count() >= core.terms.pipeline as usize {
        return Err(NoMemory);
    }
    let v = core.by_place[place.0 as usize];
    let scope = core.pipe.admit_now(v);
    core.pipe.ready(scope);
    take(&mut core.numbers.tasks, place, snapshot);
    Ok(scope)
}

/// Admits the vertex at this place in the tasks.
fn take(tasks: &mut TaskSet, place: Vertex, snapshot: bool)
    requires { CanTake tasks.old (record { vertex = place; snapshot = snapshot }) }
    ensures { IsAdmittedThere tasks.old tasks.new place snapshot }
{
    if snapshot {
        tasks.admit_asked(place);
    } else {
        tasks.admit_task(place);
    }
}
