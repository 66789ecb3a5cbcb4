//! The restarts that a store lacks.
ghost use Rattle.std.specs.Prelude.{◌≡◌, ◌++◌, filter, true, IfOk, OnOk};
ghost use Rattle.std.specs.List.{AllByRecursion};
ghost use Rattle.recovery.specs.restarts.Missing.{Begins, is_restart, restarts};
ghost use Rattle.recovery.specs.restarts.Inner.Kept.{kept_restart};

use gl_base::{Entry, NoMemory};
use std::alloc::Global;

/// The restarts that a store's order lacks as an attempt ends: those of the order that the attempt
/// began with, and one for each of so many failures, with this ticket.
pub fn missing_restarts(
    alloc: Global,
    stored: &[Entry],
    front: &[Entry],
    failures: usize,
    ticket: u64,
) -> Result<Vec<Entry>, NoMemory>
    requires { Begins (filter is_restart stored.now) (filter is_restart front.now) }
    ensures lacks { IfOk result (λ missing.
        filter is_restart stored.now ++ missing.items ≡ filter is_restart
        front.now ++ restarts failures ticket) }
    ensures alone { IfOk result (λ missing.
        AllByRecursion (λ entry. is_restart entry ≡ true) missing.items) }
{
    let known = restarts_of(alloc, stored)?.len();
    let begun = restarts_of(alloc, front)?;
    let mut missing = Vec::from_slice(alloc, &begun[known..])?;
    push_restarts(&mut missing, failures, ticket)?;
    Ok(missing)
}

/// The restarts of an order, in their turn.
pub fn restarts_of(alloc: Global, order: &[Entry]) -> Result<Vec<Entry>, NoMemory>
    ensures { IfOk result (λ found. found.items ≡ filter is_restart order.now) }
{
    let mut found = Vec::new(alloc);
    for entry in order {
        push_restart(&mut found, *entry)?;
    }
    Ok(found)
}

/// Adds the entry, where it is a restart.
fn push_restart(found: &mut Vec<Entry>, entry: Entry) -> Result<(), NoMemory>
    ensures { OnOk result (found.new.items ≡ found.old.items ++ kept_restart entry) }
{
    match entry {
        Entry::Restart { .. } => found.push(entry)?,
        Entry::Go { .. } => {}
    }
    Ok(())
}

/// Adds so many restarts with this ticket.
fn push_restarts(missing: &mut Vec<Entry>, failures: usize, ticket: u64) -> Result<(), NoMemory>
    ensures { OnOk result (missing.new.items ≡ missing.old.items ++ restarts failures ticket) }
{
    for _ in 0..failures {
        missing.push(Entry::Restart { ticket })?;
    }
    Ok(())
}
