//! Whether a record may stand in a store.
ghost use Rattle.std.specs.Prelude.{◌≡◌, ◌↔◌, ◌+◌, ◌^◌, ◌<◌, length, false, IsTrue, All, IfOk};
ghost use Rattle.store.specs.store_format.Bodies.{IsBody};
ghost use Rattle.store.specs.store_format.Encoding.{body_bytes, PartFits, RecordFits};

use crate::store_format::Header;
use crate::store_format::body_check::{body_size, fault_of_body};
use crate::store_format::encoding::push_body;
use gl_base::{NoMemory, Record, SavedPart};
use graph_atoms::atom_file::u32_at;
use std::alloc::Global;

/// How many things a field of four bytes counts.
const COUNTS: usize = 1 << 32;

/// Whether the counts of a part fit their fields.
fn part_fits(part: &SavedPart) -> bool
    ensures { IsTrue result ↔ PartFits part.now }
{
    part.vertices.len() < COUNTS && part.edges.len() < COUNTS
}

/// Whether the counts of parts fit.
fn parts_fit(parts: &[SavedPart]) -> bool
    ensures { IsTrue result ↔ All PartFits parts.now }
{
    for part in parts {
        if !part_fits(part) {
            return false;
        }
    }
    true
}

/// Whether the counts of a record fit their fields.
fn record_fits(next: &Record) -> bool
    ensures { IsTrue result ↔ RecordFits next.now }
{
    next.entries.len() < COUNTS && parts_fit(&next.sections)
}

/// Whether bytes are the body of the snapshot with this number.
fn is_body(alloc: Global, header: &Header, number: u32, body: &[u8]) -> Result<bool, NoMemory>
    ensures { IfOk result (λ yes. IsTrue yes ↔ IsBody header.now number body.now) }
{
    if body.len() < 8 || body.len() as u64 != body_size(header, u32_at(body, 4)) {
        return Ok(false);
    }
    match fault_of_body(alloc, header, number, body)? {
        Some(_) => Ok(false),
        None => Ok(true),
    }
}

/// Whether the record of a snapshot is in the form of a store for this header, as that with this
/// number. Want of memory is no answer to that.
pub fn is_record(
    alloc: Global,
    header: &Header,
    number: u32,
    next: &Record,
) -> Result<bool, NoMemory>
    ensures fits { IfOk result (λ yes. IsTrue yes → RecordFits next.now) }
    ensures form { IfOk result (λ yes. IsTrue yes →
        IsBody header.now number (body_bytes next.now)) }
    ensures taken { IfOk result (λ yes. RecordFits next.now →
        IsBody header.now number (body_bytes next.now) → IsTrue yes) }
{
    if !record_fits(next) {
        return Ok(false);
    }
    let mut body = Vec::new(alloc);
    push_body(&mut body, next)?;
    is_body(alloc, header, number, &body)
}
