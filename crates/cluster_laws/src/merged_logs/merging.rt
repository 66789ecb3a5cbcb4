//! Logs merged into one order.
ghost use Rattle.std.specs.Prelude.{◌≡◌, ◌+◌, ◌<◌, [], ◌∷◌, ◌++◌, length, map, slice_get, slice_index_or, All, IfOk, OnOk};
ghost use Rattle.std.specs.BinaryHeap.{IsHeap, heap_items};
ghost use Rattle.gl_base.specs.declared.entries.Entry.{Entry};
ghost use Rattle.cluster_laws.specs.merged_logs.Merges.{IsByTicket, IsMerge, IsPermutation, all_logged};
ghost use Rattle.cluster_laws.specs.merged_logs.Inner.Fronts.{front_cmp, front_of};

use crate::merged_logs::fronts::{Front, add_front, first_fronts};
use gl_base::{Entry, NoMemory};
use std::alloc::Global;
use std::collections::BinaryHeap;

/// The entries of all logs in one order by ticket, where each log is by ticket. The time is linear
/// in the entries, times the logarithm of how many logs there are.
pub fn merge(alloc: Global, logs: &[&[Entry]]) -> Result<Vec<Entry>, NoMemory>
    requires { All (λ log. IsByTicket log.now) logs.now }
    ensures { IfOk result (λ order.
        IsMerge (all_logged (map (λ log. log.now) logs.now)) order.items) }
{
    let mut fronts = first_fronts(alloc, logs)?;
    let mut order = Vec::with_capacity(alloc, count_in(logs))?;
    while let Some(front) = fronts.pop() {
        merge_one(front, logs[front.log], &mut fronts, &mut order)?;
    }
    Ok(order)
}

/// Adds the entry at the front of a log to the order, and the next front of the log where there is
/// one.
fn merge_one(
    front: Front,
    entries: &[Entry],
    fronts: &mut BinaryHeap<Front>,
    order: &mut Vec<Entry>,
) -> Result<(), NoMemory>
    requires { front.place < length entries.now }
    ensures entry { (d : Entry) →
        OnOk result (order.new.items ≡ order.old.items ++ slice_index_or
        entries.now front.place d ∷ []) }
    ensures added { OnOk result
        (IsPermutation (front_of front.log (front.place + 1)
        (slice_get entries.now (front.place + 1)) ++ heap_items fronts.old)
        (heap_items fronts.new)) }
    ensures heap { OnOk result (IsHeap front_cmp (heap_items fronts.old) →
        IsHeap front_cmp (heap_items fronts.new)) }
{
    order.push(entries[front.place])?;
    add_front(fronts, entries, front.log, front.place + 1)
}

/// How many entries the logs have.
fn count_in(logs: &[&[Entry]]) -> usize {
    let mut count = 0usize;
    for entries in logs {
        count = count.saturating_add(entries.len());
    }
    count
}
