//! Events that happen, or may not happen now.
ghost use Rattle.std.specs.Prelude.{◌<◌, ◌≡◌, length, OnErr};
ghost use Rattle.cluster_step.specs.drive.Pauses.{GoesOnBy, IsSameAttempt, NamesItsMachines, TraceGoesOn, as_since};

use crate::trace::{Event, SavingMachine, Trace};
use gl_base::{MachineNo, NoMemory, Refused};

/// Makes the event, and says whether it happened.
pub(crate) fn happens<M: SavingMachine>(
    trace: &mut Trace<M>,
    event: Event,
) -> Result<bool, NoMemory>
    requires names { NamesItsMachines (length trace.old.now.machines.items) event }
    requires none { GoesOnBy event }
    ensures same { IsSameAttempt trace.old trace.new }
    ensures on { OnErr result (TraceGoesOn M.represents (as_since trace.new) trace.new) }
{
    match trace.apply(event) {
        Ok(()) => Ok(true),
        Err(Refused::NotNow) => Ok(false),
        Err(Refused::NoMemory) => Err(NoMemory),
    }
}

/// Makes an update at once at the machine, and says whether one was made.
pub(crate) fn is_made_at_once<M: SavingMachine>(
    trace: &mut Trace<M>,
    at: MachineNo,
) -> Result<bool, NoMemory>
    requires { at.0 < length trace.old.now.machines.items }
    ensures same { IsSameAttempt trace.old trace.new }
    ensures on { OnErr result (TraceGoesOn M.represents (as_since trace.new) trace.new) }
{
    match trace.update_at_once(at) {
        Ok(_) => Ok(true),
        Err(Refused::NotNow) => Ok(false),
        Err(Refused::NoMemory) => Err(NoMemory),
    }
}

/// Makes the event as often as it may happen, and says whether it happened.
pub(crate) fn exhaust<M: SavingMachine>(
    trace: &mut Trace<M>,
    event: Event,
) -> Result<bool, NoMemory>
    requires names { NamesItsMachines (length trace.old.now.machines.items) event }
    requires none { GoesOnBy event }
    ensures same { IsSameAttempt trace.old trace.new }
    ensures on { OnErr result (TraceGoesOn M.represents (as_since trace.new) trace.new) }
{
    for times in 0..u64::MAX {
        if !happens(trace, event)? {
            return Ok(times > 0);
        }
    }
    Ok(true)
}
