//! Where the rounds of an attempt pause.
ghost use Rattle.std.specs.Prelude.{◌≡◌, false, IfNone, IfSome, IsTrue};
ghost use Rattle.cluster_step.specs.drive.Pauses.{HasFlaggedTask, HasTaskLeft, IsReachedAt, IsSpentNow, NoneReached, OfTheCall, PauseMeaning, TraceGoesOn, as_since};

use crate::drive::asking::{is_full, lacks_no_snapshot};
use crate::trace::{Due, SavingMachine, Trace};
use gl_base::MachineNo;

/// Why the rounds of an attempt pause.
#[derive(Clone, Copy)]
pub enum Pause {
    /// The machine has reached the count of a failure.
    Reached(MachineNo),
    /// The record of the snapshot of this number is due.
    Record(u32),
    /// The call has ended.
    Ended,
    /// Nothing is left to do in a call whose end is not saved.
    Quiet,
    /// As many snapshots are stored as may be, and one more is under way.
    Full,
    /// No ticket is left, and a task is; and a store that has as many snapshots as may be lacks
    /// none.
    Spent,
}

/// The pause, where the trace is at one; and whether the end of the call is saved.
pub(crate) fn pause_of<M: SavingMachine>(trace: &Trace<M>, saves_end: bool) -> Option<Pause>
    ensures pause { IfSome result (PauseMeaning M.represents trace.now) }
    ensures unsaved { IfSome result (λ pause. pause ≡ Pause.Quiet → saves_end ≡ false) }
    ensures since { TraceGoesOn M.represents (as_since trace.now) trace.now }
{
    match first_reached(trace) {
        Some(m) => Some(Pause::Reached(m)),
        None => quiet_pause(trace, saves_end),
    }
}

/// The pause, where no machine has reached the count of a failure.
fn quiet_pause<M: SavingMachine>(trace: &Trace<M>, saves_end: bool) -> Option<Pause>
    requires { NoneReached M.represents trace.now }
    ensures pause { IfSome result (PauseMeaning M.represents trace.now) }
    ensures unsaved { IfSome result (λ pause. pause ≡ Pause.Quiet → saves_end ≡ false) }
{
    match trace.due() {
        Due::Record(number) => Some(Pause::Record(number)),
        Due::Ended => Some(Pause::Ended),
        _ => last_pause(trace, saves_end),
    }
}

/// The pause, where neither a record is due nor the end.
fn last_pause<M: SavingMachine>(trace: &Trace<M>, saves_end: bool) -> Option<Pause>
    requires { NoneReached M.represents trace.now }
    ensures pause { IfSome result (PauseMeaning M.represents trace.now) }
    ensures unsaved { IfSome result (λ pause. pause ≡ Pause.Quiet → saves_end ≡ false) }
{
    if !saves_end && trace.leaves_nothing() {
        Some(Pause::Quiet)
    } else if is_full(trace) {
        Some(Pause::Full)
    } else if is_spent(trace) {
        Some(Pause::Spent)
    } else {
        None
    }
}

/// Whether no ticket is left of the budget, and a task is; and a store that has as many snapshots
/// as may be lacks none.
pub(crate) fn is_spent<M: SavingMachine>(trace: &Trace<M>) -> bool
    ensures spent { IsTrue result → IsSpentNow M.represents trace.now }
    ensures task { IsTrue result → HasFlaggedTask M.represents trace.now }
{
    if trace.left() > 0 {
        return false;
    }
    if !has_task(trace) {
        return false;
    }
    lacks_no_snapshot(trace)
}

/// The first machine that has reached the count of a failure.
pub(crate) fn first_reached<M: SavingMachine>(trace: &Trace<M>) -> Option<MachineNo>
    ensures some { IfSome result (IsReachedAt M.represents trace.now) }
    ensures none { IfNone result (NoneReached M.represents trace.now) }
    ensures since { TraceGoesOn M.represents (as_since trace.now) trace.now }
{
    for m in 0..trace.machines() {
        let at = MachineNo(m as u16);
        if trace.has_reached(at) {
            return Some(at);
        }
    }
    None
}

/// Whether a machine has a scope that is ready for its update, so that a task is left.
fn has_task<M: SavingMachine>(trace: &Trace<M>) -> bool
    ensures left { IsTrue result →
        OfTheCall M.represents trace.now (λ st o c call. HasTaskLeft st call) }
    ensures here { IsTrue result → HasFlaggedTask M.represents trace.now }
{
    for m in 0..trace.machines() {
        if let Some(_) = trace.next_update(MachineNo(m as u16)) {
            return true;
        }
    }
    false
}
