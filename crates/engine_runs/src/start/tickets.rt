//! The tickets of a call.
ghost use Rattle.std.specs.Prelude.{◌≡◌, ◌-◌, ◌^◌, ◌≤◌, ◌<◌, ◌+◌, min, suc};
ghost use Rattle.call_laws.specs.attempts.EngineCalls.{ticket_above};
ghost use Rattle.cluster_laws.specs.cluster_core.Replays.{ticket_of};

use gl_base::Entry;

/// One above the greatest ticket of an order, and 0 where it has no entry; but at most the greatest
/// number that there is.
pub(crate) fn next_ticket(order: &[Entry]) -> u64
    ensures { result ≡ min (ticket_above order.now) (2 ^ 64 - 1) }
{
    let mut next = 0;
    for entry in order {
        next = next.max(ticket_of(entry).saturating_add(1));
    }
    next
}

/// The ticket of an entry.
fn ticket_of(entry: &Entry) -> u64
    ensures { result ≡ ticket_of entry.now }
{
    match *entry {
        Entry::Go { ticket, .. } | Entry::Restart { ticket } => ticket,
    }
}

/// How many tickets a call has from this one on: as many as its budget, where there are so many.
pub(crate) fn tickets_from(next: u64, budget: u64) -> u64
    ensures fits { next + result < 2 ^ 64 }
    ensures all { next + budget < 2 ^ 64 → result ≡ budget }
{
    budget.min(u64::MAX - next)
}
