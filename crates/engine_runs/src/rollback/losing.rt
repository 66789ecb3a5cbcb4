//! The updates that going back takes away.
ghost use Rattle.std.specs.Prelude.{◌≡◌, IfOk};
ghost use Rattle.cluster_laws.specs.cluster_model.Clusters.{BaseView};
ghost use Rattle.cluster_laws.specs.cluster_model.Events.{GoesBackTo};
ghost use Rattle.engine_runs.specs.rollback.Failing.{InEachTrace, newest_setting};
ghost use Rattle.call_laws.specs.whole_calls.Lost.{TakesAway};

use crate::finish::merged_logs;
use call_laws::lost_updates::lost_updates;
use cluster_step::trace::{SavingMachine, Trace};
use gl_base::{Entry, NoMemory};
use std::alloc::Global;

/// The updates of the attempt that an order lacks, by ticket: where all go back to that order,
/// these are taken away.
pub(crate) fn taken_away<M: SavingMachine>(
    alloc: Global,
    trace: &Trace<M>,
    order: &[Entry],
) -> Result<Vec<Entry>, NoMemory>
    ensures { IfOk result (λ gone.
        InEachTrace M.represents trace.now (λ st o events c. (to : BaseView) →
        to.order ≡ order.now →
        GoesBackTo (newest_setting st o events) c to →
        TakesAway (newest_setting st o events) c to gone.items)) }
{
    let merged = merged_logs(alloc, trace)?;
    lost_updates(alloc, order, &merged)
}
