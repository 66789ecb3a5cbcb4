//! The check of entries.
ghost use Rattle.std.specs.Prelude.{◌≡◌, ◌+◌, ◌*◌, ◌^◌, ◌<◌, ◌≤◌, length, Some, None, IfOk, OnOk, IfErr};
ghost use Rattle.store.specs.store_format.Entries.{rank, rank_at, limit_of_kind, entry_fault, entries_fault};

use crate::store_format::Header;
use crate::store_format::fields::{check_within, u64_at};
use graph_atoms::atom_file::{u16_at, u32_at};

/// The kind of a Go, and one below it that of a Restart, which no machine makes and which has no
/// vertex.
pub const GO: u8 = 1;

/// The tickets of a snapshot are below so many times its number.
const TICKETS: u64 = 33_554_432;

/// Below what the machine or the vertex of an entry is.
fn limit_of_kind(kind: u8, limit: u64) -> u64
    ensures { result ≡ limit_of_kind kind limit }
{
    if kind == GO { limit } else { 1 }
}

/// Where an entry stands among others.
fn rank(kind: u8, ticket: u64) -> u64
    requires { ticket < 2 ^ 60 }
    ensures { result ≡ rank kind ticket }
{
    if kind == GO {
        2 * ticket + 1
    } else {
        2 * ticket
    }
}

/// Looks at the entry at a place, whose rank may not be below `least`, and tells its rank.
fn check_entry(
    header: &Header,
    number: u32,
    least: u64,
    body: &[u8],
    at: usize,
) -> Result<u64, usize>
    requires inside { at + 16 ≤ length body.now }
    ensures none { IfOk result (λ _. entry_fault header.now number least body.now at ≡ None) }
    ensures rank { IfOk result (λ found. found ≡ rank_at body.now at) }
    ensures fault { IfErr result (λ place.
        entry_fault header.now number least body.now at ≡ Some place) }
    ensures inside { IfErr result (λ place. place < length body.now) }
{
    let kind = body[at];
    check_within(1, 3, u64::from(kind), at)?;
    check_within(0, 1, u64::from(body[at + 1]), at + 1)?;
    let machines = limit_of_kind(kind, u64::from(header.machines));
    check_within(0, machines, u64::from(u16_at(body, at + 2)), at + 2)?;
    let vertices = limit_of_kind(kind, u64::from(header.n));
    check_within(0, vertices, u64::from(u32_at(body, at + 4)), at + 4)?;
    let ticket = u64_at(body, at + 8);
    check_within(0, TICKETS * u64::from(number), ticket, at + 8)?;
    let found = rank(kind, ticket);
    if found < least {
        return Err(at + 8);
    }
    Ok(found)
}

/// Looks at so many entries of a body, which stand behind its number and their count.
pub fn check_entries(header: &Header, number: u32, body: &[u8], count: u32) -> Result<(), usize>
    requires { 8 + 16 * count ≤ length body.now }
    ensures none { OnOk result (entries_fault header.now number 0 count body.now 8 ≡ None) }
    ensures fault { IfErr result (λ place.
        entries_fault header.now number 0 count body.now 8 ≡ Some place) }
    ensures inside { IfErr result (λ place. place < length body.now) }
{
    let mut least = 0;
    for i in 0..count as usize {
        least = check_entry(header, number, least, body, 8 + 16 * i)?;
    }
    Ok(())
}
