//! An attempt of a call without a store is driven until it pauses.
ghost use Rattle.std.specs.Prelude.{◌≡◌, IfOk, IfSome};
ghost use Rattle.cluster_step.specs.drive.Pauses.{IsSameAttempt, NoneReached, TraceGoesOn, as_since};
ghost use Rattle.cluster_step.specs.drive.Unsaved.{PausesUnsaved};
ghost use Rattle.cluster_step.specs.trace.Calls.{EndsWhereUnsaved};

use crate::drive::pauses::{first_reached, is_spent};
use crate::drive::turns::round;
use crate::trace::{SavingMachine, Trace};
use gl_base::{MachineNo, NoMemory};
use std::sync::Wait;

/// Why the rounds of an attempt pause in a call that stores no snapshot.
#[derive(Clone, Copy)]
pub enum UnsavedPause {
    /// The machine has reached the count of a failure.
    Reached(MachineNo),
    /// Nothing is left to do.
    Quiet,
    /// No ticket is left, and a task is.
    Spent,
}

/// Makes rounds until the attempt pauses, and says why: it pauses as soon as nothing is left to do.
/// Then, where no snapshots are taken, no message is on its way between machines, no scope is in
/// flight, and nobody waits for a lock.
/// For want of memory the trace stays where it is. No snapshot is acknowledged, and no attempt
/// begins: each course has gone on from where the trace was remembered.
pub fn drive_unsaved<R: Wait, M: SavingMachine>(
    rt: &R,
    trace: &mut Trace<M>,
) -> Result<UnsavedPause, NoMemory>
    ensures same { IsSameAttempt trace.old trace.new }
    ensures since { TraceGoesOn M.represents (as_since trace.new) trace.new }
    ensures pause { IfOk result (PausesUnsaved M.represents trace.new) }
    ensures settled { IfOk result (λ pause. pause ≡ UnsavedPause.Quiet →
        EndsWhereUnsaved M.represents trace.new) }
{
    for _ in rt.forever() {
        if let Some(pause) = unsaved_pause(trace) {
            return Ok(pause);
        }
        round(trace)?;
    }
    unreachable!()
}

/// The pause, where the trace is at one.
fn unsaved_pause<M: SavingMachine>(trace: &Trace<M>) -> Option<UnsavedPause>
    ensures pause { IfSome result (PausesUnsaved M.represents trace.now) }
    ensures settled { IfSome result (λ pause. pause ≡ UnsavedPause.Quiet →
        EndsWhereUnsaved M.represents trace.now) }
    ensures since { TraceGoesOn M.represents (as_since trace.now) trace.now }
{
    match first_reached(trace) {
        Some(m) => Some(UnsavedPause::Reached(m)),
        None => unsaved_end(trace),
    }
}

/// The pause, where no machine has reached the count of a failure.
fn unsaved_end<M: SavingMachine>(trace: &Trace<M>) -> Option<UnsavedPause>
    requires { NoneReached M.represents trace.now }
    ensures pause { IfSome result (PausesUnsaved M.represents trace.now) }
    ensures settled { IfSome result (λ pause. pause ≡ UnsavedPause.Quiet →
        EndsWhereUnsaved M.represents trace.now) }
{
    if trace.leaves_nothing() {
        Some(UnsavedPause::Quiet)
    } else if is_spent(trace) {
        Some(UnsavedPause::Spent)
    } else {
        None
    }
}
