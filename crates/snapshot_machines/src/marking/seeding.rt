//! Where nothing is pending, the first vertex without the mark becomes pending.
ghost use Rattle.std.specs.Prelude.{◌≡◌, ℕ, ◌<◌, ◌≤◌, true, false, None, Some, length, slice_get, IfSome};
ghost use Rattle.gl_base.specs.declared.numbers.Vertex.{Vertex};
ghost use Rattle.partition.specs.machine_numbers.Views.{is_own};
ghost use Rattle.machine_core.specs.machine_parts.Order.{IsOrderly, KnowsPlaces};
ghost use Rattle.machine_core.specs.machine_parts.Settings.{SameSettings};
ghost use Rattle.snapshot_machines.specs.marking.Seeding.{AreMarkedBelow, HasSeeded, IsFirstUnmarked, HasOtherPending};

use crate::marking::pending::pend_one;
use gl_base::Vertex;
use machine_core::machine_parts::Core;
use partition::machine_numbers::Numbers;

/// Where no vertex is pending, the first own vertex that has no mark of this snapshot becomes
/// pending; those before `seen` have it. It takes no memory, and looks once at each vertex that has
/// its mark.
pub fn seed(core: &mut Core, known: u32, seen: &mut usize)
    requires orderly { IsOrderly core.old }
    requires places { KnowsPlaces core.old }
    requires seen { AreMarkedBelow core.old.numbers known seen.old }
    ensures seeded { HasSeeded core.old core.new known }
    ensures seen { AreMarkedBelow core.new.numbers known seen.new }
    ensures orderly { IsOrderly core.new }
    ensures places { KnowsPlaces core.new }
    ensures settings { SameSettings core.old core.new }
    ensures rest { HasOtherPending core.old core.new }
{
    if core.numbers.tasks.has_pending() {
        return;
    }
    *seen = first_unmarked(&core.numbers, known, *seen);
    if let Some(v) = own_at(&core.numbers, *seen) {
        pend_one(&mut core.numbers.tasks, &core.numbers.local, v);
    }
}

/// The own vertex at this place, where they stand ascending.
pub fn own_at(numbers: &Numbers, place: usize) -> Option<Vertex>
    ensures some { IfSome result (λ v. (slice_get numbers.now.local.owned place ≡ Some v) ×
        (is_own numbers.now.local v.0 ≡ true)) }
    ensures none { result ≡ None → (v : Vertex) → slice_get numbers.now.local.owned place ≡ Some v →
        is_own numbers.now.local v.0 ≡ false }
{
    let v = *numbers.local.owned().get(place)?;
    if numbers.local.owns(v) { Some(v) } else { None }
}

/// The place among the own vertices, ascending, of the first that has no mark of this snapshot;
/// behind the last where each has it.
pub fn first_unmarked(numbers: &Numbers, known: u32, seen: usize) -> usize
    requires { AreMarkedBelow numbers.now known seen }
    ensures below { AreMarkedBelow numbers.now known result }
    ensures first { IsFirstUnmarked numbers.now known result }
{
    let owned = numbers.local.owned();
    for place in seen..owned.len() {
        if numbers.datum(owned[place]).mark < known {
            return place;
        }
    }
    seen.max(owned.len())
}
