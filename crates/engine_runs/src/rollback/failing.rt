//! Machines that have reached the count of a failure fail.
ghost use Rattle.std.specs.Prelude.{◌<◌, ◌≡◌, length, OnErr, OnOk};
ghost use Rattle.engine_runs.specs.rollback.Failing.{HaveFailedSince, InEachTrace, IsSameAttempt};

use cluster_step::trace::{Event, Local, SavingMachine, Trace};
use gl_base::{MachineNo, NoMemory, Refused};

/// Each machine that has reached the count of a failure fails, where it hasn't yet. For want of
/// memory some may not have: call it again.
pub fn fail_reached<M: SavingMachine>(trace: &mut Trace<M>) -> Result<(), NoMemory>
    ensures same { IsSameAttempt trace.old trace.new }
    ensures failed { OnOk result
        (InEachTrace M.represents trace.old (HaveFailedSince M.represents trace.new (λ a.
        a < length trace.old.now.machines.items))) }
    ensures wanting { OnErr result
        (InEachTrace M.represents trace.old (HaveFailedSince M.represents trace.new (λ a. ⊥))) }
{
    for m in 0..trace.machines() {
        fail_where_reached(trace, MachineNo(m as u16))?;
    }
    Ok(())
}

/// The machine fails, where it has reached the count of a failure and hasn't failed yet.
fn fail_where_reached<M: SavingMachine>(trace: &mut Trace<M>, m: MachineNo) -> Result<(), NoMemory>
    requires { m.0 < length trace.old.now.machines.items }
    ensures same { IsSameAttempt trace.old trace.new }
    ensures failed { OnOk result
        (InEachTrace M.represents trace.old (HaveFailedSince M.represents trace.new (λ a.
        a ≡ m.0))) }
    ensures wanting { OnErr result
        (InEachTrace M.represents trace.old (HaveFailedSince M.represents trace.new (λ a. ⊥))) }
{
    if !trace.has_reached(m) || trace.has_failed(m) {
        return Ok(());
    }
    match trace.apply(Event::Local(Local::Fail(m))) {
        Ok(()) => Ok(()),
        Err(Refused::NotNow) => Ok(()),
        Err(Refused::NoMemory) => Err(NoMemory),
    }
}
