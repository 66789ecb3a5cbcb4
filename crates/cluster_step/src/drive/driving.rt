//! An attempt is driven until it pauses.
ghost use Rattle.std.specs.Prelude.{◌≡◌, false, IfOk};
ghost use Rattle.cluster_step.specs.drive.Pauses.{IsSameAttempt, PauseMeaning, TraceGoesOn, as_since};

use crate::drive::pauses::{Pause, pause_of};
use crate::drive::turns::round;
use crate::trace::{SavingMachine, Trace};
use gl_base::NoMemory;
use std::sync::Wait;

/// Makes rounds until the attempt pauses, and says why. Where its end is not saved, it pauses as
/// soon as nothing is left to do. For want of memory the trace stays where it is. No snapshot is
/// acknowledged, and no attempt begins: each course has gone on from where the trace was
/// remembered.
pub fn drive<R: Wait, M: SavingMachine>(
    rt: &R,
    trace: &mut Trace<M>,
    saves_end: bool,
) -> Result<Pause, NoMemory>
    ensures same { IsSameAttempt trace.old trace.new }
    ensures since { TraceGoesOn M.represents (as_since trace.new) trace.new }
    ensures pause { IfOk result (PauseMeaning M.represents trace.new) }
    ensures unsaved { IfOk result (λ pause. pause ≡ Pause.Quiet → saves_end ≡ false) }
{
    for _ in rt.forever() {
        if let Some(pause) = pause_of(trace, saves_end) {
            return Ok(pause);
        }
        round(trace)?;
    }
    unreachable!()
}
