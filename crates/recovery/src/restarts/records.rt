//! The record of a snapshot, as a store takes it.
ghost use Rattle.std.specs.List.{AllByRecursion};
ghost use Rattle.std.specs.List.Sorted.{IsNonDecreasingBy};
ghost use Rattle.std.specs.Prelude.{◌≡◌, ◌++◌, List, filter, true, IfOk};
ghost use Rattle.recovery.specs.restarts.Missing.{Setting, Snapshot, IsRecordBehind, IsRecordFor, entry_rank, is_restart};

use gl_base::{Entry, NoMemory, Record};
use std::alloc::Global;

/// The record with the restarts that the store lacks among its entries, each before the updates
/// with its ticket: as the store takes it.
pub fn record_behind(alloc: Global, saved: Record, missing: &[Entry]) -> Result<Record, NoMemory>
    // It is the record of the same snapshot, behind the order that the store has.
    ensures behind { IfOk result (λ made.
        (st : Setting) (before front : List Entry) (snapshot : Snapshot) →
        IsRecordFor st snapshot saved →
        AllByRecursion (λ entry. is_restart entry ≡ true) missing.now →
        filter is_restart before ++ missing.now ≡ filter is_restart front →
        IsRecordBehind st before front snapshot made) }
    ensures number { IfOk result (λ made. made.number ≡ saved.number) }
    ensures in_turn { IfOk result (λ made. IsNonDecreasingBy entry_rank made.entries.items) }
{
    let mut entries = Vec::from_slice(alloc, missing)?;
    entries.extend_from_slice(&saved.entries)?;
    entries.sort_unstable_by_key(|entry| rank(*entry));
    Ok(Record {
        number: saved.number,
        entries,
        sections: saved.sections,
    })
}

/// Where an entry stands in an order: by its ticket, and a restart before an update with the same.
fn rank(entry: Entry) -> u128
    ensures { result ≡ entry_rank entry }
{
    match entry {
        Entry::Go { ticket, .. } => 2 * ticket as u128 + 1,
        Entry::Restart { ticket } => 2 * ticket as u128,
    }
}
