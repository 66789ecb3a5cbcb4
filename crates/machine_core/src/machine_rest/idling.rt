//! Whether a machine is idle.
ghost use Rattle.std.specs.Prelude.{◌≡◌};
ghost use Rattle.machine_core.specs.machine_rest.Rest.{IsOrderly, IsPartOf, KnowsPlaces, Setting, is_idle, part_of};

use crate::machine_parts::Core;
use crate::machine_rest::scopes::somebody_waits;
use crate::machine_rest::tasks::has_work;

/// Whether no vertex is a task or pending, no scope of this machine is in flight, and nobody waits
/// for one of its locks. Whoever waits has come, so it looks at no lock where no scope has. It
/// looks at each vertex where all else is at rest.
pub fn is_idle(core: &Core) -> bool
    requires orderly { IsOrderly core.now }
    requires places { KnowsPlaces core.now }
    ensures { (st : Setting) → IsPartOf st core.now → result ≡ is_idle st (part_of core.now) }
{
    if core.pipe.flight_count() > 0 {
        return false;
    }
    if somebody_waits(core.pipe.entered_ones(), &core.locks) {
        return false;
    }
    !has_work(&core.numbers.tasks)
}
