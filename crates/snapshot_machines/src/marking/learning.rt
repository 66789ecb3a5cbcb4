//! Word of updates elsewhere, with what it tells of a snapshot.
ghost use Rattle.std.specs.Prelude.{◌≡◌};
ghost use Rattle.machine_core.specs.machine_parts.Order.{IsOrderly, KnowsPlaces};
ghost use Rattle.machine_core.specs.machine_parts.Settings.{SameSettings};
ghost use Rattle.coordinator.specs.snap_update.Snaps.{HasKeptRoom, IsSameButRoom, with_begun};
ghost use Rattle.snapshot_machines.specs.marking.Learning.{CanLearnNews, HasLearnedNews};
ghost use Rattle.snapshot_machines.specs.marking.Seeding.{AreMarkedBelow};
ghost use Rattle.snapshot_machines.specs.marking.Sending.{AreMarksUpTo};

use crate::marking::hearing::begin;
use crate::marking::pending::pend_named;
use coordinator::snap_update::SnapPart;
use machine_core::machine_parts::Core;
use machine_core::machine_updates::receive_done;
use std::alloc::Global;
use wire::wire_msgs::Done;

/// Word of an update elsewhere has come, be it a snapshot update or not. The snapshot that it tells
/// of has begun, its numbers are kept, the vertices that it wakes are tasks and those that it names
/// for the snapshot are pending, and its scope's locks here are released. It takes no memory.
pub fn learn(alloc: Global, core: &mut Core, snaps: &mut SnapPart, seen: &mut usize, done: Done)
    requires orderly { IsOrderly core.old }
    requires places { KnowsPlaces core.old }
    requires seen { AreMarkedBelow core.old.numbers snaps.old.known seen.old }
    requires can { CanLearnNews core.old done }
    ensures learned { HasLearnedNews core.old snaps.old core.new snaps.new done }
    ensures kept { IsSameButRoom (with_begun done.number snaps.old) snaps.new }
    ensures room { HasKeptRoom snaps.old.room snaps.new.room }
    ensures local { core.new.numbers.local ≡
        record core.old.numbers.local { numbers = core.new.numbers.local.numbers } }
    ensures outside { core.new.numbers.tasks.outside ≡ core.old.numbers.tasks.outside }
    ensures tasks { let now = core.new.numbers.tasks in
        now ≡ record core.old.numbers.tasks {
          task = now.task;
          pending = now.pending;
          asked = now.asked;
        } }
    ensures rest { core.new ≡ record core.old {
      numbers = core.new.numbers;
      locks = core.new.locks;
    } }
    ensures seen { AreMarkedBelow core.new.numbers snaps.new.known seen.new }
    ensures marks { AreMarksUpTo core.old.numbers snaps.old.known →
        AreMarksUpTo core.new.numbers snaps.new.known }
    ensures orderly { IsOrderly core.new }
    ensures places { KnowsPlaces core.new }
    ensures settings { SameSettings core.old core.new }
{
    let Done {
        scope,
        centre,
        datum,
        edges,
        wakes,
        pends,
        number,
    } = done;
    begin(core, snaps, seen, number);
    let plain = Done {
        scope,
        centre,
        datum,
        edges,
        wakes,
        pends: Vec::new(alloc),
        number: 0,
    };
    receive_done(core, &plain);
    pend_named(&mut core.numbers.tasks, &core.numbers.local, &pends);
}
