//! A machine's turn in a round, and the coordinator's.
ghost use Rattle.std.specs.Prelude.{◌≡◌, ◌^◌, ◌<◌, length, OnErr};
ghost use Rattle.cluster_step.specs.drive.Pauses.{IsSameAttempt, TraceGoesOn, as_since};

use crate::drive::happenings::{exhaust, happens, is_made_at_once};
use crate::trace::{Due, Event, Lead, Local, Passage, SavingMachine, Trace};
use gl_base::{MachineNo, NoMemory};

/// How many tasks a machine takes up in one turn.
const TASKS_IN_A_TURN: u32 = 16;

/// Each machine has its turn, and then the coordinator: a snapshot or a step begins where one is
/// due, and where nothing else moved a wave is put out where one is due. A machine that reaches the
/// count of a failure ends the round, so that no other machine makes an update before the failure.
/// Says whether anything moved.
pub(crate) fn round<M: SavingMachine>(trace: &mut Trace<M>) -> Result<bool, NoMemory>
    ensures same { IsSameAttempt trace.old trace.new }
    ensures on { OnErr result (TraceGoesOn M.represents (as_since trace.new) trace.new) }
{
    let mut moved = false;
    for m in 0..trace.machines() {
        let at = MachineNo(m as u16);
        if turn(trace, at)? {
            moved = true;
        }
        if trace.has_reached(at) {
            return Ok(moved);
        }
    }
    lead(trace, moved)
}

/// The coordinator's turn, where so much has moved before. Says whether anything moved.
fn lead<M: SavingMachine>(trace: &mut Trace<M>, moved: bool) -> Result<bool, NoMemory>
    ensures same { IsSameAttempt trace.old trace.new }
    ensures on { OnErr result (TraceGoesOn M.represents (as_since trace.new) trace.new) }
{
    match trace.due() {
        Due::Snapshot(_) => happens(trace, Event::Lead(Lead::Begin)),
        Due::Step(_) => happens(trace, Event::Lead(Lead::Step)),
        Due::Wave => {
            if moved {
                Ok(true)
            } else {
                happens(trace, Event::Lead(Lead::Wave))
            }
        }
        _ => Ok(moved),
    }
}

/// The machine works, and what it has to send and what is sent to it is brought. Says whether
/// anything moved.
fn turn<M: SavingMachine>(trace: &mut Trace<M>, at: MachineNo) -> Result<bool, NoMemory>
    requires { at.0 < length trace.old.now.machines.items }
    ensures same { IsSameAttempt trace.old trace.new }
    ensures on { OnErr result (TraceGoesOn M.represents (as_since trace.new) trace.new) }
{
    let worked = work(trace, at)?;
    let told = tell_all(trace, at)?;
    let led = hear_and_report(trace, at)?;
    Ok(worked || told || led)
}

/// What has come is settled; then one task after another is taken up, until the machine reaches the
/// count of a failure. Says whether anything moved.
fn work<M: SavingMachine>(trace: &mut Trace<M>, at: MachineNo) -> Result<bool, NoMemory>
    requires { at.0 < length trace.old.now.machines.items }
    ensures same { IsSameAttempt trace.old trace.new }
    ensures on { OnErr result (TraceGoesOn M.represents (as_since trace.new) trace.new) }
{
    let mut moved = settle(trace, at)?;
    for _ in 0..TASKS_IN_A_TURN {
        if trace.has_reached(at) || !take_up(trace, at)? {
            return Ok(moved);
        }
        moved = true;
    }
    Ok(moved)
}

/// A vertex is updated at once, or where the machine's pick may not be a scope is admitted and goes
/// as far as it may. Says whether there was one.
fn take_up<M: SavingMachine>(trace: &mut Trace<M>, at: MachineNo) -> Result<bool, NoMemory>
    requires { at.0 < length trace.old.now.machines.items }
    ensures same { IsSameAttempt trace.old trace.new }
    ensures on { OnErr result (TraceGoesOn M.represents (as_since trace.new) trace.new) }
{
    if is_made_at_once(trace, at)? {
        return Ok(true);
    }
    if !happens(trace, Event::Local(Local::Admit(at)))? {
        return Ok(false);
    }
    settle(trace, at)?;
    Ok(true)
}

/// Locks are granted and updates made at the machine until there are none, or it reaches the count
/// of a failure. Says whether there was one.
fn settle<M: SavingMachine>(trace: &mut Trace<M>, at: MachineNo) -> Result<bool, NoMemory>
    requires { at.0 < length trace.old.now.machines.items }
    ensures same { IsSameAttempt trace.old trace.new }
    ensures on { OnErr result (TraceGoesOn M.represents (as_since trace.new) trace.new) }
{
    for times in 0..u64::MAX {
        if trace.has_reached(at) || !goes_on(trace, at)? {
            return Ok(times > 0);
        }
    }
    Ok(true)
}

/// A lock is granted at the machine, or else an update made, or else a snapshot update, or else its
/// section is put out. Says whether there was one.
fn goes_on<M: SavingMachine>(trace: &mut Trace<M>, at: MachineNo) -> Result<bool, NoMemory>
    requires { at.0 < length trace.old.now.machines.items }
    ensures same { IsSameAttempt trace.old trace.new }
    ensures on { OnErr result (TraceGoesOn M.represents (as_since trace.new) trace.new) }
{
    if let Some(x) = trace.next_grant(at) {
        return happens(trace, Event::Local(Local::Grant(at, x)));
    }
    if update(trace, at)? {
        return Ok(true);
    }
    if let Some(scope) = trace.next_mark(at) {
        return happens(trace, Event::Local(Local::Mark(scope)));
    }
    happens(trace, Event::Local(Local::Section(at)))
}

/// An update is made at the machine, where one may be. Says whether there was one.
fn update<M: SavingMachine>(trace: &mut Trace<M>, at: MachineNo) -> Result<bool, NoMemory>
    requires { at.0 < length trace.old.now.machines.items }
    ensures same { IsSameAttempt trace.old trace.new }
    ensures on { OnErr result (TraceGoesOn M.represents (as_since trace.new) trace.new) }
{
    match trace.next_update(at) {
        Some(scope) => happens(trace, Event::Local(Local::Update(scope))),
        None => Ok(false),
    }
}

/// All that waits at the machine for others is sent and received. Says whether anything moved.
fn tell_all<M: SavingMachine>(trace: &mut Trace<M>, from: MachineNo) -> Result<bool, NoMemory>
    requires { from.0 < length trace.old.now.machines.items }
    ensures same { IsSameAttempt trace.old trace.new }
    ensures on { OnErr result (TraceGoesOn M.represents (as_since trace.new) trace.new) }
{
    let mut moved = false;
    for m in 0..trace.machines() {
        if tell(trace, from, MachineNo(m as u16))? {
            moved = true;
        }
    }
    Ok(moved)
}

/// All that waits at the one machine for the other is sent and received. Says whether anything
/// moved.
fn tell<M: SavingMachine>(
    trace: &mut Trace<M>,
    from: MachineNo,
    to: MachineNo,
) -> Result<bool, NoMemory>
    requires from { from.0 < length trace.old.now.machines.items }
    requires to { to.0 < length trace.old.now.machines.items }
    ensures same { IsSameAttempt trace.old trace.new }
    ensures on { OnErr result (TraceGoesOn M.represents (as_since trace.new) trace.new) }
{
    let sent = exhaust(trace, Event::Passage(Passage::Send { from, to }))?;
    let received = exhaust(trace, Event::Passage(Passage::Deliver { from, to }))?;
    Ok(sent || received)
}

/// What the coordinator has for the machine is brought, and what the machine has for the
/// coordinator. Says whether anything moved.
fn hear_and_report<M: SavingMachine>(trace: &mut Trace<M>, at: MachineNo) -> Result<bool, NoMemory>
    requires { at.0 < length trace.old.now.machines.items }
    ensures same { IsSameAttempt trace.old trace.new }
    ensures on { OnErr result (TraceGoesOn M.represents (as_since trace.new) trace.new) }
{
    let heard = hear(trace, at)?;
    let reported = report(trace, at)?;
    Ok(heard || reported)
}

/// What the coordinator has for the machine is sent and received. Says whether anything moved.
fn hear<M: SavingMachine>(trace: &mut Trace<M>, at: MachineNo) -> Result<bool, NoMemory>
    requires { at.0 < length trace.old.now.machines.items }
    ensures same { IsSameAttempt trace.old trace.new }
    ensures on { OnErr result (TraceGoesOn M.represents (as_since trace.new) trace.new) }
{
    let sent = exhaust(trace, Event::Passage(Passage::SendCall(at)))?;
    let received = exhaust(trace, Event::Passage(Passage::DeliverCall(at)))?;
    Ok(sent || received)
}

/// What the machine has for the coordinator is sent and received. Says whether anything moved.
fn report<M: SavingMachine>(trace: &mut Trace<M>, at: MachineNo) -> Result<bool, NoMemory>
    requires { at.0 < length trace.old.now.machines.items }
    ensures same { IsSameAttempt trace.old trace.new }
    ensures on { OnErr result (TraceGoesOn M.represents (as_since trace.new) trace.new) }
{
    let sent = exhaust(trace, Event::Passage(Passage::SendReport(at)))?;
    let received = exhaust(trace, Event::Passage(Passage::DeliverReport(at)))?;
    Ok(sent || received)
}
