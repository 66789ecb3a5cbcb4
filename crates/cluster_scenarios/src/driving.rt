//! A cluster is driven to its end.
use crate::events::{happens, has_machine, next_grant};
use crate::records::take_record;
use crate::scenes::Scene;
use crate::trouble::Trouble;
use cluster_step::clusters::{Due, Event, Lead, Local, Passage, SavingMachine, SnapCluster};
use gl_base::MachineNo;
use std::alloc::Global;
use update_api::Program;

/// How many rounds are made at most, and how many events in one turn of a machine.
const MOST: u32 = 1000000;

/// Makes rounds, and what the coordinator has due, until the end is due, or until a record is.
/// Returns `true` then.
pub fn drive<P: Program>(
    alloc: Global,
    scene: &mut Scene<'_, P>,
    to_record: bool,
) -> Result<bool, Trouble> {
    let machines = scene.beginning.machines;
    for _ in 0..MOST {
        let moved = match go_on(&mut scene.whole, machines)? {
            Stand::Ended => return Ok(true),
            Stand::Record if to_record => return Ok(true),
            Stand::Record => take_record(alloc, scene)?,
            Stand::GoesOn(moved) => moved,
        };
        if !moved {
            return Err(Trouble::Because("nothing moves, and it is not the end"));
        }
    }
    Err(Trouble::Because("no end comes"))
}

/// Where a cluster stands: at its end, at a record that is due, or behind what was due, which moved
/// something or not.
enum Stand {
    Ended,
    Record,
    GoesOn(bool),
}

/// Does what the coordinator has due, but for a record; or else makes a round, and puts a wave out
/// if nothing moves.
fn go_on<M: SavingMachine>(whole: &mut SnapCluster<M>, machines: u16) -> Result<Stand, Trouble> {
    let moved = match whole.due() {
        Due::Ended => return Ok(Stand::Ended),
        Due::Record(_) => return Ok(Stand::Record),
        Due::Snapshot(_) => happens(whole, Event::Lead(Lead::Begin))?,
        Due::Step(_) => happens(whole, Event::Lead(Lead::Step))?,
        _ => round(whole, machines)? || happens(whole, Event::Lead(Lead::Wave))?,
    };
    Ok(Stand::GoesOn(moved))
}

/// Gives each machine its turn. Returns whether anything moved.
fn round<M: SavingMachine>(whole: &mut SnapCluster<M>, machines: u16) -> Result<bool, Trouble> {
    let mut moved = false;
    for m in 0..machines {
        let at = MachineNo(m);
        moved = settle(whole, at)? || moved;
        moved = tell(whole, at, machines)? || moved;
    }
    Ok(moved)
}

/// Does what the machine may do by itself, until there is nothing. Returns whether there was
/// something.
pub fn settle<M: SavingMachine>(
    whole: &mut SnapCluster<M>,
    at: MachineNo,
) -> Result<bool, Trouble> {
    for times in 0..MOST {
        let event = match next_of(whole, at)? {
            Some(event) => event,
            None => Event::Local(Local::Admit(at)),
        };
        if !happens(whole, event)? {
            return if matches!(event, Event::Local(Local::Admit(_))) {
                Ok(times > 0)
            } else {
                Err(Trouble::Because("what may happen is refused"))
            };
        }
    }
    Err(Trouble::Because("a turn has no end"))
}

/// Returns a grant, an update, a snapshot update or a section of the machine that may be now.
fn next_of<M: SavingMachine>(
    whole: &mut SnapCluster<M>,
    at: MachineNo,
) -> Result<Option<Event>, Trouble> {
    if let Some(x) = next_grant(whole, at) {
        return Ok(Some(Event::Local(Local::Grant(at, x))));
    }
    if !has_machine(whole, at) {
        return Err(Trouble::Because("there is no such machine"));
    }
    if let Some(scope) = whole.next_update(at) {
        return Ok(Some(Event::Local(Local::Update(scope))));
    }
    if let Some(scope) = whole.next_mark(at) {
        return Ok(Some(Event::Local(Local::Mark(scope))));
    }
    if whole.has_section(at) {
        return Ok(Some(Event::Local(Local::Section(at))));
    }
    Ok(None)
}

/// Grants locks and brings messages between machines, until there is nothing of that. Returns
/// `true` then.
pub fn bring<M: SavingMachine>(whole: &mut SnapCluster<M>, machines: u16) -> Result<bool, Trouble> {
    for _ in 0..MOST {
        let mut moved = false;
        for m in 0..machines {
            let at = MachineNo(m);
            if let Some(x) = next_grant(whole, at) {
                moved = happens(whole, Event::Local(Local::Grant(at, x)))? || moved;
            }
            moved = tell_others(whole, at, machines)? || moved;
        }
        if !moved {
            return Ok(true);
        }
    }
    Err(Trouble::Because("messages have no end"))
}

/// Brings what waits at the machine or for it. Returns whether anything did.
fn tell<M: SavingMachine>(
    whole: &mut SnapCluster<M>,
    at: MachineNo,
    machines: u16,
) -> Result<bool, Trouble> {
    let mut moved = exhaust(whole, Passage::SendCall(at))?;
    moved = exhaust(whole, Passage::DeliverCall(at))? || moved;
    moved = exhaust(whole, Passage::SendReport(at))? || moved;
    moved = exhaust(whole, Passage::DeliverReport(at))? || moved;
    Ok(tell_others(whole, at, machines)? || moved)
}

/// Brings what waits at the machine for others. Returns whether anything did.
fn tell_others<M: SavingMachine>(
    whole: &mut SnapCluster<M>,
    at: MachineNo,
    machines: u16,
) -> Result<bool, Trouble> {
    let mut moved = false;
    for other in 0..machines {
        let to = MachineNo(other);
        moved = exhaust(whole, Passage::Send { from: at, to })? || moved;
        moved = exhaust(whole, Passage::Deliver { from: at, to })? || moved;
    }
    Ok(moved)
}

/// Lets the message go or come as often as it may. Returns whether it did.
fn exhaust<M: SavingMachine>(
    whole: &mut SnapCluster<M>,
    passage: Passage,
) -> Result<bool, Trouble> {
    for times in 0..MOST {
        if !happens(whole, Event::Passage(passage))? {
            return Ok(times > 0);
        }
    }
    Ok(true)
}
