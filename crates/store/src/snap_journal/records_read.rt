//! Records, read one after another.
ghost use Rattle.std.specs.Prelude.{◌≡◌, ℕ, ◌+◌, ◌^◌, ◌<◌, ◌≤◌, true, false, List, length, take, drop, None, Err, IsTrue, IfOk, IfErr, IfSome, OnOk};
ghost use Rattle.store.specs.store_format.Bodies.{body_fault};
ghost use Rattle.store.specs.store_format.Records.{bodies_from};
ghost use Rattle.store.specs.snap_journal.Formats.{IsBody};
ghost use Rattle.store.specs.snap_journal.Inner.Reads.{IsNextLength, IsNextBody, BodyErrorCause, NextBodyErrorCause};

use crate::snap_journal::JournalFault;
use crate::snap_journal::disk_reads::read_front;
use crate::store_format::{Header, StoreFault, body_size, fault_of_body, u32_at, u64_at};
use gl_outside::Disk;
use std::alloc::Global;

/// The byte of an open gate.
pub const OPEN: u8 = 1;

/// How many bytes an open gate, a length, a number and a count of entries have.
const HEAD: u64 = 17;

/// Where a record is looked for: the number that it is to have, the place of the gate before it,
/// and how many bytes the store has.
#[derive(Clone, Copy)]
pub struct RecordPlace {
    pub number: u32,
    pub at: u64,
    pub len: u64,
}

/// What the first bytes at a gate say, up to 17 of them: nothing where the gate isn't open, and
/// else the length of a body that is there.
fn length_in(header: &Header, at: u64, len: u64, head: &[u8]) -> Result<Option<u64>, StoreFault>
    requires { at + length head.now ≤ len }
    ensures next { (number : ℕ) (bytes : List ℕ) →
        head.now ≡ take 17 bytes → at + length bytes ≡ len
        → IfOk result (IsNextLength header.now number at bytes) }
    ensures here { IfOk result (λ next. at < len) }
    ensures room { IfOk result (λ next. IfSome next (λ size. at + 10 + size ≤ len)) }
    ensures least { IfOk result (λ next. IfSome next (λ size. 8 ≤ size)) }
    ensures small { IfOk result (λ next. IfSome next (λ size. size < 2 ^ 38)) }
    ensures fault { (number : ℕ) (bytes : List ℕ) →
        head.now ≡ take 17 bytes → at + length bytes ≡ len
        → IfErr result (λ fault. bodies_from header.now number at 0 bytes ≡ Err fault) }
{
    if head.is_empty() {
        return Err(StoreFault::Torn(at));
    }
    if head[0] != OPEN {
        return Ok(None);
    }
    if (head.len() as u64) < HEAD {
        return Err(StoreFault::Torn(at + head.len() as u64));
    }
    let size = u64_at(head, 1);
    if size != body_size(header, u32_at(head, 13)) {
        return Err(StoreFault::BadByte(at + 1));
    }
    if len - at < 10 + size {
        return Err(StoreFault::Torn(len));
    }
    Ok(Some(size))
}

/// Reads what stands at a gate: nothing where it isn't open, and else the length of a body that is
/// there.
fn next_length<D: Disk>(
    alloc: Global,
    disk: &mut D,
    header: &Header,
    place: RecordPlace,
) -> Result<Option<u64>, JournalFault>
    requires inside { place.at ≤ place.len }
    requires len { IsTrue D.observable → place.len ≡ length (D.past disk.old).now.seen }
    ensures next { IsTrue D.observable →
        IfOk result (IsNextLength header.now place.number place.at
        (drop place.at (D.past disk.old).now.seen)) }
    ensures here { IfOk result (λ next. place.at < place.len) }
    ensures room { IfOk result (λ next. IfSome next (λ size. place.at + 10 + size ≤ place.len)) }
    ensures least { IfOk result (λ next. IfSome next (λ size. 8 ≤ size)) }
    ensures small { IfOk result (λ next. IfSome next (λ size. size < 2 ^ 38)) }
    ensures fault { IfErr result
        (NextBodyErrorCause (IsTrue D.observable) header.now place.number place.at
        (D.past disk.old).now.seen (D.faults disk.old) (D.faults disk.new)) }
    ensures past { IsTrue D.observable → D.past disk.new ≡ D.past disk.old }
    ensures same { D.same disk.old disk.new }
    ensures later { D.faults disk.old ≤ D.faults disk.new }
{
    let there = (place.len - place.at).min(HEAD);
    let head = read_front(alloc, disk, place.at, there as usize)?;
    match length_in(header, place.at, place.len, &head) {
        Ok(next) => Ok(next),
        Err(fault) => Err(JournalFault::BadStore(fault)),
    }
}

/// Looks whether what was read as a body of this size, behind the gate at a place, is one.
fn check_body(
    alloc: Global,
    header: &Header,
    number: u32,
    at: u64,
    size: u64,
    body: &[u8],
) -> Result<(), JournalFault>
    requires least { 8 ≤ size }
    requires most { length body.now ≤ size }
    requires room { at + 10 + size < 2 ^ 64 }
    ensures none { OnOk result (body_fault header.now number body.now ≡ None) }
    ensures numbers { OnOk result (number < 4294967295) }
    ensures form { OnOk result (IsBody header.now number body.now) }
    ensures fault { IfErr result (BodyErrorCause header.now number at size body.now) }
{
    if (body.len() as u64) < size {
        return Err(JournalFault::BadStore(StoreFault::Torn(at + 9 + body.len() as u64)));
    }
    if size != body_size(header, u32_at(body, 4)) {
        return Err(JournalFault::BadStore(StoreFault::BadByte(at + 1)));
    }
    match fault_of_body(alloc, header, number, body)? {
        None => Ok(()),
        Some(place) => Err(JournalFault::BadStore(StoreFault::BadByte(at + 9 + place as u64))),
    }
}

/// Reads what stands at a gate, and tells whether that is a record. Its body takes the place of the
/// one that was read before, whose memory is given back first; where there is none, that one stays.
pub fn next_body<D: Disk>(
    alloc: Global,
    disk: &mut D,
    header: &Header,
    place: RecordPlace,
    body: &mut Vec<u8>,
) -> Result<bool, JournalFault>
    requires inside { place.at ≤ place.len }
    requires len { IsTrue D.observable → place.len ≡ length (D.past disk.old).now.seen }
    ensures next { IsTrue D.observable →
        IfOk result (λ more.
        IsNextBody header.now place.number place.at
        (D.past disk.old).now.seen body.new.items more) }
    ensures kept { IfOk result (λ more. more ≡ false → body.new ≡ body.old) }
    ensures here { IfOk result (λ more. place.at < place.len) }
    ensures ascends { IfOk result (λ more. more ≡ true →
        place.at + 10 + length body.new.items ≤ place.len) }
    ensures numbers { IfOk result (λ more. more ≡ true → place.number < 4294967295) }
    ensures form { IfOk result (λ more. more ≡ true →
        IsBody header.now place.number body.new.items) }
    ensures fault { IfErr result
        (NextBodyErrorCause (IsTrue D.observable) header.now place.number place.at
        (D.past disk.old).now.seen (D.faults disk.old) (D.faults disk.new)) }
    ensures past { IsTrue D.observable → D.past disk.new ≡ D.past disk.old }
    ensures same { D.same disk.old disk.new }
    ensures later { D.faults disk.old ≤ D.faults disk.new }
{
    let Some(size) = next_length(alloc, disk, header, place)? else {
        return Ok(false);
    };
    *body = Vec::new(alloc);
    let read = read_front(alloc, disk, place.at + 9, size as usize)?;
    check_body(alloc, header, place.number, place.at, size, &read)?;
    *body = read;
    Ok(true)
}
