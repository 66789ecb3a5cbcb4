//! The first entry of each log that is not merged yet.
ghost use Rattle.std.specs.Prelude.{◌≡◌, ◌++◌, [], map, slice_get, All, IfOk, OnOk};
ghost use Rattle.std.specs.BinaryHeap.{IsHeap, heap_items};
ghost use Rattle.std.specs.List.Sorted.{IsPermutation};
ghost use Rattle.cluster_laws.specs.merged_logs.Merges.{ticket_of};
ghost use Rattle.cluster_laws.specs.merged_logs.Inner.Fronts.{AreLeft, IsFrontOf, front_cmp, front_of};

use gl_base::{Entry, NoMemory};
use std::alloc::Global;
use std::cmp::Reverse;
use std::collections::BinaryHeap;

/// An entry of a log: the place where it stands, and its ticket. Of two the one with the lower
/// ticket is greater, since a heap gives the greatest.
#[derive(Clone, Copy, PartialEq, Eq, PartialOrd, Ord)]
pub struct Front {
    pub ticket: Reverse<u64>,
    pub log: usize,
    pub place: usize,
}

/// Adds the entry of a log at a place, where there is one.
pub fn add_front(
    fronts: &mut BinaryHeap<Front>,
    entries: &[Entry],
    log: usize,
    place: usize,
) -> Result<(), NoMemory>
    ensures added { OnOk result
        (IsPermutation (front_of log place (slice_get entries.now place) ++ heap_items fronts.old)
        (heap_items fronts.new)) }
    ensures heap { OnOk result (IsHeap front_cmp (heap_items fronts.old) →
        IsHeap front_cmp (heap_items fronts.new)) }
{
    if let Some(entry) = entries.get(place) {
        fronts.push(Front {
            ticket: Reverse(ticket(*entry)),
            log,
            place,
        })?;
    }
    Ok(())
}

/// The ticket of an entry.
fn ticket(entry: Entry) -> u64
    ensures { result ≡ ticket_of entry }
{
    match entry {
        Entry::Go { ticket, .. } | Entry::Restart { ticket } => ticket,
    }
}

/// The first entry of each log.
pub fn first_fronts(alloc: Global, logs: &[&[Entry]]) -> Result<BinaryHeap<Front>, NoMemory>
    ensures fronts { IfOk result (λ fronts.
        All (IsFrontOf (map (λ log. log.now) logs.now)) (heap_items fronts)) }
    ensures left { IfOk result (λ fronts.
        AreLeft (map (λ log. log.now) logs.now) [] (heap_items fronts)) }
    ensures heap { IfOk result (λ fronts. IsHeap front_cmp (heap_items fronts)) }
{
    let mut fronts = BinaryHeap::with_capacity(alloc, logs.len())?;
    for (log, entries) in logs.iter().enumerate() {
        add_front(&mut fronts, entries, log, 0)?;
    }
    Ok(fronts)
}
