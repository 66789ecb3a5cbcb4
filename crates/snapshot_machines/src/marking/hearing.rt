//! What a machine hears of snapshots.
ghost use Rattle.std.specs.Prelude.{◌≡◌, nat_lt, if◌then◌else◌};
ghost use Rattle.machine_core.specs.machine_parts.Order.{IsOrderly, KnowsPlaces};
ghost use Rattle.machine_core.specs.machine_parts.Parts.{part_of};
ghost use Rattle.machine_core.specs.machine_parts.Settings.{SameSettings};
ghost use Rattle.coordinator.specs.snap_update.Snaps.{HasKeptRoom, IsSameButRoom, outside_of, with_begun, with_committed};
ghost use Rattle.snapshot_machines.specs.marking.Hearing.{HasBegun, HasFewerOutside};
ghost use Rattle.snapshot_machines.specs.marking.Seeding.{AreMarkedBelow, HasOtherPending};

use crate::marking::seeding::seed;
use coordinator::snap_update::SnapPart;
use machine_core::machine_parts::Core;

/// A snapshot of this number has begun: where it is newer than those that the machine knows, it
/// knows it, and has saved nothing for it yet. Then, where no vertex is pending, the first own one
/// that has no mark of the newest snapshot becomes so. It takes no memory.
pub fn begin(core: &mut Core, snaps: &mut SnapPart, seen: &mut usize, number: u32)
    requires orderly { IsOrderly core.old }
    requires places { KnowsPlaces core.old }
    requires seen { AreMarkedBelow core.old.numbers snaps.old.known seen.old }
    ensures begun { HasBegun core.old snaps.old core.new snaps.new number }
    ensures kept { IsSameButRoom (with_begun number snaps.old) snaps.new }
    ensures room { HasKeptRoom snaps.old.room snaps.new.room }
    ensures seen { AreMarkedBelow core.new.numbers snaps.new.known seen.new }
    ensures orderly { IsOrderly core.new }
    ensures places { KnowsPlaces core.new }
    ensures settings { SameSettings core.old core.new }
    ensures rest { HasOtherPending core.old core.new }
{
    *seen = seen_then(snaps, *seen, number);
    seed(core, snaps.known(), seen);
}

/// A snapshot of this number has begun; before which place vertices have the mark of the newest
/// one: none, where that is this one.
fn seen_then(snaps: &mut SnapPart, seen: usize, number: u32) -> usize
    ensures place { result ≡ (if nat_lt snaps.old.known number then 0 else seen) }
    ensures kept { IsSameButRoom (with_begun number snaps.old) snaps.new }
    ensures room { HasKeptRoom snaps.old.room snaps.new.room }
{
    if snaps.begin(number) { 0 } else { seen }
}

/// This snapshot is acknowledged, which has the oldest section that wasn't known to be: its updates
/// are outside no more. It takes no memory.
pub fn committed(core: &mut Core, snaps: &mut SnapPart, number: u32)
    requires outside { core.old.numbers.tasks.outside ≡ outside_of snaps.old }
    ensures committed { snaps.new ≡ with_committed number snaps.old }
    ensures outside { core.new.numbers.tasks.outside ≡ outside_of snaps.new }
    ensures rest { HasFewerOutside core.old core.new }
    ensures part { part_of core.new ≡ part_of core.old }
    ensures orderly { IsOrderly core.old → IsOrderly core.new }
    ensures places { KnowsPlaces core.old → KnowsPlaces core.new }
    ensures settings { SameSettings core.old core.new }
{
    let many = snaps.committed(number);
    core.numbers.tasks.acknowledged(many);
}
