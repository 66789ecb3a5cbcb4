//! What the tasks pick.
ghost use Rattle.std.specs.Prelude.{◌≡◌, ◌⊎◌, ◌<◌, true, None, length, IfSome};
ghost use Rattle.machine_core.specs.machine_scopes.Admitting.{with_pick};
ghost use Rattle.machine_core.specs.machine_scopes.Inner.Picking.{IsNextPick, CanTake, StandInLine, IsPutBack, IsUnplanned, is_flagged};

use task_sets::task_sched::{Pick, TaskSet};

/// Admits what the tasks pick next.
pub fn take_pick(tasks: &mut TaskSet) -> Option<Pick>
    ensures next { IsNextPick tasks.old result }
    ensures line { StandInLine tasks.old }
    ensures can { IfSome result (λ pick. CanTake tasks.old pick) }
    ensures taken { IfSome result (λ pick. tasks.new ≡ with_pick tasks.old pick) }
    ensures none { result ≡ None → tasks.new ≡ tasks.old }
{
    tasks.next()
}

/// What was picked is admitted no more, and waits again: a pending vertex behind the others, and a
/// task with the least key.
pub fn put_back(tasks: &mut TaskSet, pick: Pick)
    requires within { pick.vertex.0 < length tasks.old.task }
    requires admitted { is_flagged tasks.old.admitted pick.vertex.0 ≡ true }
    requires kind { is_flagged tasks.old.pending pick.vertex.0 ≡ pick.snapshot }
    requires due { (is_flagged tasks.old.pending pick.vertex.0 ≡ true) ⊎
        (is_flagged tasks.old.task pick.vertex.0 ≡ true) }
    requires outside { tasks.old.outside < 18446744073709551615 }
    ensures back { IsPutBack tasks.old tasks.new pick.vertex.0 }
    ensures plans { IsUnplanned tasks.old tasks.new pick }
{
    if pick.snapshot {
        tasks.marked(pick.vertex);
        tasks.pend(pick.vertex);
    } else {
        tasks.ran(pick.vertex);
        tasks.wake(pick.vertex, 0);
        tasks.acknowledged(1);
    }
}
