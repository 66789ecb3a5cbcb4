//! The updates that an order lacks.
ghost use Rattle.std.specs.Prelude.{◌≡◌, ◌==◌, ◌++◌, ℕ, filter, if◌then◌else◌, [], ◌∷◌, IfOk, OnOk};
ghost use Rattle.std.specs.List.{flat_map, list_any};
ghost use Rattle.call_laws.specs.lost_updates.Lacking.{is_lacking, is_update_at, ticket_of};
ghost use Rattle.call_laws.specs.lost_updates.Inner.Tickets.{Rise, kept_lacking, tickets_of, update_ticket};

use gl_base::{Entry, NoMemory};
use std::alloc::Global;

/// The updates of a list whose tickets no update of an order has, in their turn. The time is linear
/// in both, times the logarithm of the order's length.
pub fn lost_updates(alloc: Global, order: &[Entry], made: &[Entry]) -> Result<Vec<Entry>, NoMemory>
    ensures { IfOk result (λ lost. lost.items ≡ filter (is_lacking order.now) made.now) }
{
    let tickets = update_tickets(alloc, order)?;
    let mut lost = Vec::new(alloc);
    for entry in made {
        push_lacking(&mut lost, &tickets, *entry)?;
    }
    Ok(lost)
}

/// Adds the entry where its ticket is not among these, which ascend.
fn push_lacking(lost: &mut Vec<Entry>, tickets: &[u64], entry: Entry) -> Result<(), NoMemory>
    requires { Rise tickets.now }
    ensures { OnOk result (lost.new.items ≡ lost.old.items ++ kept_lacking tickets.now entry) }
{
    if !has_ticket(tickets, ticket(entry)) {
        lost.push(entry)?;
    }
    Ok(())
}

/// The tickets of an order's updates, ascending.
fn update_tickets(alloc: Global, order: &[Entry]) -> Result<Vec<u64>, NoMemory>
    ensures rise { IfOk result (λ tickets. Rise tickets.items) }
    ensures tickets { IfOk result (λ tickets. (t : ℕ) →
        list_any (λ ticket. ticket == t) tickets.items ≡ list_any (is_update_at t) order.now) }
{
    let mut tickets = tickets_in_turn(alloc, order)?;
    tickets.sort_unstable();
    Ok(tickets)
}

/// The tickets of an order's updates.
fn tickets_in_turn(alloc: Global, order: &[Entry]) -> Result<Vec<u64>, NoMemory>
    ensures { IfOk result (λ tickets. tickets.items ≡ tickets_of order.now) }
{
    let mut tickets = Vec::new(alloc);
    for entry in order {
        push_ticket(&mut tickets, *entry)?;
    }
    Ok(tickets)
}

/// Adds the ticket of an update.
fn push_ticket(tickets: &mut Vec<u64>, entry: Entry) -> Result<(), NoMemory>
    ensures { OnOk result (tickets.new.items ≡ tickets.old.items ++ update_ticket entry) }
{
    if let Entry::Go { ticket, .. } = entry {
        tickets.push(ticket)?;
    }
    Ok(())
}

/// Whether the ticket is among these, which ascend.
fn has_ticket(tickets: &[u64], ticket: u64) -> bool
    requires { Rise tickets.now }
    ensures { result ≡ list_any (λ other. other == ticket) tickets.now }
{
    match tickets.binary_search(&ticket) {
        Ok(_) => true,
        Err(_) => false,
    }
}

/// The ticket of an entry.
fn ticket(entry: Entry) -> u64
    ensures { result ≡ ticket_of entry }
{
    match entry {
        Entry::Go { ticket, .. } | Entry::Restart { ticket } => ticket,
    }
}
