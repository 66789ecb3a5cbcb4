//! The order of a call.
ghost use Rattle.std.specs.Prelude.{◌≡◌, List, IfOk};
ghost use Rattle.engine_runs.specs.finish.Gathered.{InEachTrace, IsMerge, all_logged, machine_logs};
ghost use Rattle.engine_runs.specs.finish.Inner.Orders.{HasMergedBehind};
ghost use Rattle.cluster_laws.specs.cluster_core.Replays.{ticket_of};

use cluster_step::trace::{SavingMachine, Trace};
use gl_base::{Entry, MachineNo, NoMemory};
use std::alloc::Global;

/// The order with which the newest attempt began, and behind it the updates that all machines have
/// made in it, by ticket.
pub(crate) fn order_behind<M: SavingMachine>(
    alloc: Global,
    trace: &Trace<M>,
    front: Vec<Entry>,
) -> Result<Vec<Entry>, NoMemory>
    ensures { IfOk result (HasMergedBehind M.represents trace.now front.items) }
{
    let merged = merged_logs(alloc, trace)?;
    let mut order = front;
    order.extend_from_slice(&merged)?;
    Ok(order)
}

/// The updates of all machines in the newest attempt, by ticket.
pub(crate) fn merged_logs<M: SavingMachine>(
    alloc: Global,
    trace: &Trace<M>,
) -> Result<Vec<Entry>, NoMemory>
    ensures { IfOk result (λ merged.
        InEachTrace M.represents trace.now (λ st o events c.
        IsMerge (all_logged (machine_logs st.machines c)) merged.items)) }
{
    let mut merged = all_logs(alloc, trace)?;
    merged.sort_unstable_by_key(|entry| ticket(*entry));
    Ok(merged)
}

/// The logs of all machines, one behind the other.
fn all_logs<M: SavingMachine>(alloc: Global, trace: &Trace<M>) -> Result<Vec<Entry>, NoMemory>
    ensures { IfOk result (λ all.
        InEachTrace M.represents trace.now (λ st o events c.
        all.items ≡ all_logged (machine_logs st.machines c))) }
{
    let mut all = Vec::new(alloc);
    for m in 0..trace.machines() {
        all.extend_from_slice(trace.log(MachineNo(m as u16)))?;
    }
    Ok(all)
}

/// The ticket of an entry.
fn ticket(entry: Entry) -> u64
    ensures { result ≡ ticket_of entry }
{
    match entry {
        Entry::Go { ticket, .. } | Entry::Restart { ticket } => ticket,
    }
}
