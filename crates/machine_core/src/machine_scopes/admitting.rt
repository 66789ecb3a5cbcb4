//! Admitting scopes.
ghost use Rattle.std.specs.Prelude.{◌≡◌, IfOk, OnErr, IsErrOf};
ghost use Rattle.machine_core.specs.machine_scopes.Admitting.{IsOrderly, KnowsPlaces, SameSettings, CanAdmitPick, MayAdmitNone, HasAdmittedPick, KeepsPlans, next_id, part_of};

use crate::machine_parts::Core;
use crate::machine_scopes::picking::{put_back, take_pick};
use crate::machine_scopes::starting::{prepare, set_out};
use gl_base::{NoMemory, Refused, ScopeId};
use std::alloc::Global;

/// Admits a scope of the vertex that the tasks pick, where fewer scopes are in flight than may be:
/// it asks for its first lock here, or sets out to the first machine of its scope. There is no
/// memory for it also where no serial is left, or where it would come here and as many scopes have
/// come as may.
pub fn admit(alloc: Global, core: &mut Core) -> Result<ScopeId, Refused>
    requires orderly { IsOrderly core.old }
    requires places { KnowsPlaces core.old }
    ensures orderly { IsOrderly core.new }
    ensures places { KnowsPlaces core.new }
    ensures settings { SameSettings core.old core.new }
    ensures scope { IfOk result (λ s. s ≡ next_id core.old.pipe) }
    ensures admitted { IfOk result (λ s. HasAdmittedPick core.old core.new) }
    ensures not_now { IsErrOf result Refused.NotNow → MayAdmitNone core.old }
    ensures no_memory { IsErrOf result Refused.NoMemory → CanAdmitPick core.old }
    ensures unchanged { OnErr result (part_of core.new ≡ part_of core.old) }
    ensures plans { OnErr result (KeepsPlans core.old core.new) }
    ensures local { core.new.numbers.local ≡ core.old.numbers.local }
    ensures outside { core.new.numbers.tasks.outside ≡ core.old.numbers.tasks.outside }
    ensures terms { core.new.terms ≡ core.old.terms }
{
    if core.pipe.flight_count() >= core.terms.pipeline as usize {
        return Err(Refused::NotNow);
    }
    let Some(pick) = take_pick(&mut core.numbers.tasks) else {
        return Err(Refused::NotNow);
    };
    let v = core.by_place[pick.vertex.0 as usize];
    let scope = core.pipe.next_id();
    match prepare(alloc, core, scope, v) {
        Ok(start) => {
            core.pipe.admit_now(v);
            set_out(core, scope, v, start);
            Ok(scope)
        }
        Err(NoMemory) => {
            put_back(&mut core.numbers.tasks, pick);
            Err(Refused::NoMemory)
        }
    }
}
