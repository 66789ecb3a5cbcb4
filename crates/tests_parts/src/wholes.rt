//! A lock that one scope holds at a time, and a message that waits.
use full_cluster::{FullMessage, FullQueues, WholeLock, send};
use gl_base::{MachineNo, NoMemory, Refused, ScopeId};
use std::alloc::Global;
use std::io;

/// The first scope of a machine.
fn first_of(machine: MachineNo) -> ScopeId {
    ScopeId {
        home: machine,
        serial: 0,
    }
}

/// Prints how a lock goes from one of two scopes to the other, and how a message is sent once.
pub fn print_wholes(rt: &impl Print, alloc: Global) -> io::Result<()> {
    print_lock(rt, alloc)?;
    match sent(alloc) {
        Ok(answers) => print_sent(rt, &answers),
        Err(fault) => println!(rt; "message for machine 1: {fault}"),
    }
}

fn print_lock(rt: &impl Print, alloc: Global) -> io::Result<()> {
    let mut lock = WholeLock::free(alloc);
    let (one, other) = (first_of(MachineNo(1)), first_of(MachineNo(2)));
    let asked = lock.ask(one).is_ok() && lock.ask(other).is_ok();
    println!(rt; "whole lock, scopes of 1 and 2 ask: {asked}")?;
    print_granted(rt, lock.grant())?;
    print_granted(rt, lock.grant())?;
    lock.release(other);
    println!(rt; "whole lock, released by 2: held by 1 {}", lock.holds(one))?;
    lock.release(one);
    print_granted(rt, lock.grant())?;
    let (first, second) = (lock.holds(one), lock.holds(other));
    println!(rt; "whole lock, released by 1: held by 1 {first}, by 2 {second}")
}

fn print_granted(rt: &impl Print, granted: Option<ScopeId>) -> io::Result<()> {
    match granted {
        Some(scope) => println!(rt; "whole lock, granted: to the scope of {}", scope.home.0),
        None => println!(rt; "whole lock, granted: to nobody"),
    }
}

/// What `send` answers before there is a message for machine 1 of two, when there is one, and when
/// it is on the link.
fn sent(alloc: Global) -> Result<[Result<(), Refused>; 3], NoMemory> {
    let mut out = FullQueues::none(alloc, 2)?;
    let mut links = FullQueues::none(alloc, 2)?;
    let to = MachineNo(1);
    let before = send(&mut out, &mut links, to);
    out.reserve(to)?;
    let message = FullMessage::Home {
        scope: first_of(to),
        seen: Vec::new(alloc),
    };
    out.put(to, message);
    let first = send(&mut out, &mut links, to);
    let second = send(&mut out, &mut links, to);
    Ok([before, first, second])
}

fn print_sent(rt: &impl Print, answers: &[Result<(), Refused>]) -> io::Result<()> {
    for answer in answers {
        match answer {
            Ok(()) => println!(rt; "message for machine 1: sent")?,
            Err(refused) => println!(rt; "message for machine 1: {refused}")?,
        }
    }
    Ok(())
}
