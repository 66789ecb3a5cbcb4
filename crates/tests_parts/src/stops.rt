//! The store as it is made and filled on a disk that fails.
ghost use Rattle.std.specs.Prelude.{◌≡◌};

use crate::images::print_images;
use crate::samples::{first, header, second};
use crate::stored::{print_stored, read_store};
use gl_base::{NoMemory, Record};
use gl_outside::MemDisk;
use std::alloc::Global;
use std::io;
use store::snap_journal::{Journal, init};
use store::store_format::{Header, is_record};

/// What a disk reads in the end, and how many snapshots were acknowledged.
#[derive(Drop)]
pub struct Filled {
    pub bytes: Vec<u8>,
    pub stored: u32,
}

/// How many calls the disk has: three to make the store, four to open it and four for each record.
const CALLS: u64 = 15;

/// How many of these make the store. Of a crash among them nothing is promised.
const MADE: u64 = 3;

/// Makes the store, opens and fills it on a disk whose listed calls fail, and each behind the first
/// `stop`.
pub fn filled_store(alloc: Global, failing: Vec<u64>, stop: u64) -> Result<Filled, NoMemory> {
    let mut disk = MemDisk::new(alloc, Vec::new(alloc), failing, stop);
    let header = header();
    if init(&mut disk, &header).is_err() {
        return left(alloc, &disk, 0);
    }
    match Journal::open(alloc, disk, &header) {
        Ok(mut journal) => {
            let stored = fill(alloc, &mut journal, &header)?;
            left(alloc, &journal.into_disk(), stored)
        }
        Err((_, disk)) => left(alloc, &disk, 0),
    }
}

/// What is left of a disk.
fn left(alloc: Global, disk: &MemDisk, stored: u32) -> Result<Filled, NoMemory> {
    let bytes = Vec::from_slice(alloc, disk.bytes())?;
    Ok(Filled { bytes, stored })
}

/// Adds both records, and tells how many were acknowledged.
fn fill(alloc: Global, journal: &mut Journal<MemDisk>, header: &Header) -> Result<u32, NoMemory>
    requires { journal.old.header ≡ header.now }
{
    if !add(alloc, journal, header, &first(alloc)?)? {
        return Ok(0);
    }
    if !add(alloc, journal, header, &second(alloc)?)? {
        return Ok(1);
    }
    Ok(2)
}

/// Adds a record, and tells whether it was acknowledged.
pub fn add(
    alloc: Global,
    journal: &mut Journal<MemDisk>,
    header: &Header,
    next: &Record,
) -> Result<bool, NoMemory>
    requires { journal.old.header ≡ header.now }
    ensures { journal.new.header ≡ journal.old.header }
{
    let Some(number) = journal.count().checked_add(1) else {
        return Ok(false);
    };
    if !is_record(alloc, header, number, next)? {
        return Ok(false);
    }
    Ok(journal.append(alloc, next).is_ok())
}

/// Prints what is acknowledged, and what the disk reads then, if one call fails. Nothing is
/// promised if that is among those that make the store.
pub fn print_failing_calls(rt: &impl Print, alloc: Global) -> io::Result<()> {
    for call in 1..CALLS + 1 {
        match filled_store(alloc, vec![in alloc; call]?, u64::MAX) {
            Ok(after) => print_failing(rt, alloc, call, after)?,
            Err(fault) => println!(rt; "store, call {call} fails: {fault}")?,
        }
    }
    Ok(())
}

fn print_failing(rt: &impl Print, alloc: Global, call: u64, after: Filled) -> io::Result<()> {
    if call <= MADE {
        return println!(rt; "store, call {call} fails: acknowledged {}", after.stored);
    }
    print!(rt; "store, call {call} fails: acknowledged {}, ", after.stored)?;
    print_stored(rt, &read_store(alloc, after.bytes))
}

/// Prints what images are left if the disk stops within a call.
pub fn print_stopped_calls(rt: &impl Print, alloc: Global) -> io::Result<()> {
    for call in MADE..CALLS {
        print_stopped(rt, alloc, call, call + 1)?;
    }
    Ok(())
}

fn print_stopped(rt: &impl Print, alloc: Global, call: u64, next: u64) -> io::Result<()> {
    let Ok(before) = filled_store(alloc, Vec::new(alloc), call) else {
        return println!(rt; "store stopped: out of memory");
    };
    let Ok(after) = filled_store(alloc, Vec::new(alloc), next) else {
        return println!(rt; "store stopped: out of memory");
    };
    println!(rt;
        "store stopped within call {}: acknowledged {}, then {}",
        next, before.stored, after.stored
    )?;
    print_images(rt, alloc, &before.bytes, &after.bytes)
}
