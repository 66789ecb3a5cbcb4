//! Word of updates elsewhere.
ghost use Rattle.std.specs.Prelude.{◌≡◌, length};
ghost use Rattle.partition.specs.machine_numbers.Views.{news_of};
ghost use Rattle.partition.specs.machine_numbers.Steps.{HasLearned};
ghost use Rattle.machine_core.specs.machine_parts.Order.{IsOrderly, KnowsPlaces};
ghost use Rattle.machine_core.specs.machine_parts.Settings.{SameSettings};
ghost use Rattle.machine_core.specs.machine_updates.Committing.{HasNoLock};
ghost use Rattle.machine_core.specs.machine_updates.Learning.{CanLearn, HasReceivedDone};

use crate::lock_release::release_all;
use crate::machine_parts::Core;
use wire::wire_msgs::Done;

/// Word of an update elsewhere has come: its numbers are kept, the vertices that it wakes are
/// tasks, and its scope's locks here are released, where it holds any. It takes no memory.
pub fn receive_done(core: &mut Core, done: &Done)
    requires orderly { IsOrderly core.old }
    requires can { CanLearn core.old done.now }
    ensures received { HasReceivedDone core.old core.new done.now }
    ensures orderly { IsOrderly core.new }
    ensures places { KnowsPlaces core.old → KnowsPlaces core.new }
    ensures settings { SameSettings core.old core.new }
    ensures learned { HasLearned core.old.numbers core.new.numbers (news_of done.now) }
    ensures released { HasNoLock core.old.locks core.new.locks done.now.scope }
    ensures tasks { core.new.numbers.tasks ≡
        record core.old.numbers.tasks { task = core.new.numbers.tasks.task } }
    ensures edges { length core.new.numbers.local.numbers ≡ length core.old.numbers.local.numbers }
    ensures local { core.new.numbers.local ≡
        record core.old.numbers.local { numbers = core.new.numbers.local.numbers } }
    ensures rest { core.new ≡ record core.old {
      numbers = core.new.numbers;
      locks = core.new.locks;
    } }
{
    core.numbers.learn(done);
    let part = core.numbers.local.part(done.centre);
    release_all(&mut core.locks, part, done.scope);
}
