//! The entries of records, read and put in order.
ghost use Rattle.std.specs.Prelude.{◌≡◌, ◌+◌, ◌≤◌, ◌++◌, List, ℕ, length, IfOk, OnOk};
ghost use Rattle.std.specs.List.{flat_map};
ghost use Rattle.store.specs.store_format.Bodies.{sections_place};
ghost use Rattle.store.specs.store_format.StoredOrders.{entry_at, body_entries, entry_rank, stored_order};

use crate::store_format::entries_check::GO;
use crate::store_format::fields::u64_at;
use gl_base::{Entry, MachineNo, NoMemory, Vertex};
use graph_atoms::atom_file::{u16_at, u32_at};

/// The entry at a place of a body.
fn entry_at(body: &[u8], at: usize) -> Entry
    requires { at + 16 ≤ length body.now }
    ensures { result ≡ entry_at body.now at }
{
    let ticket = u64_at(body, at + 8);
    if body[at] == GO {
        return Entry::Go {
            machine: MachineNo(u16_at(body, at + 2)),
            vertex: Vertex(u32_at(body, at + 4)),
            ticket,
        };
    }
    Entry::Restart { ticket }
}

/// Adds the entries of a body.
pub fn push_entries_of(entries: &mut Vec<Entry>, body: &[u8]) -> Result<(), NoMemory>
    requires head { 8 ≤ length body.now }
    requires whole { sections_place body.now ≤ length body.now }
    ensures { OnOk result (entries.new.items ≡ entries.old.items ++ body_entries body.now) }
{
    let count = u32_at(body, 4);
    for i in 0..count as usize {
        entries.push(entry_at(body, 8 + 16 * i))?;
    }
    Ok(())
}

/// Where an entry stands in an order.
fn rank_of(entry: &Entry) -> u128
    ensures { result ≡ entry_rank entry.now }
{
    match *entry {
        Entry::Go { ticket, .. } => 2 * u128::from(ticket) + 1,
        Entry::Restart { ticket } => 2 * u128::from(ticket),
    }
}

/// Puts the entries of records, which stand one record behind the other, into the order of the
/// snapshot that these end with.
pub fn in_order(entries: Vec<Entry>) -> Result<Vec<Entry>, NoMemory>
    ensures { IfOk result (λ order. (bodies : List (List ℕ)) →
        entries.items ≡ flat_map body_entries bodies
        → order.items ≡ stored_order bodies) }
{
    let mut order = entries;
    order.sort_by_key(|entry| rank_of(entry))?;
    Ok(order)
}
