//! A store that is full, and one whose disk has failed.
ghost use Rattle.std.specs.Prelude.{◌≡◌};
ghost use Rattle.store.specs.snap_journal.Formats.{IsAllowed};

use crate::samples::{first, header, second};
use crate::stops::add;
use crate::stored::quiet_disk;
use gl_base::{Entry, NoMemory, Record, SavedPart};
use gl_outside::MemDisk;
use std::alloc::Global;
use std::io;
use store::snap_journal::{Journal, JournalFault, init};
use store::store_format::{Digest, Header, is_record};

/// As many snapshots a store takes.
const MOST: u32 = 4096;

/// The header of a store for a graph without vertices, on one machine.
fn empty_header() -> Header
    ensures { IsAllowed result }
{
    Header {
        machines: 1,
        algorithm: 2,
        directed: 0,
        source: 0,
        n: 0,
        m: 0,
        digest: Digest([7; 32]),
    }
}

/// Its snapshot of this number: behind the first one, a restart.
fn empty_record(alloc: Global, number: u32) -> Result<Record, NoMemory> {
    let mut entries = Vec::new(alloc);
    if number > 1 {
        entries.push(Entry::Restart { ticket: 0 })?;
    }
    Ok(Record {
        number,
        entries,
        sections: vec![in alloc;
            SavedPart {
                vertices: Vec::new(alloc),
                edges: Vec::new(alloc),
            },
        ]?,
    })
}

/// How many of its snapshots the journal takes.
fn taken(
    alloc: Global,
    journal: &mut Journal<MemDisk>,
    header: &Header,
    count: u32,
) -> Result<u32, NoMemory>
    requires { journal.old.header ≡ header.now }
    ensures { journal.new.header ≡ header.now }
{
    let mut taken = 0;
    for number in 1..count {
        if add(alloc, journal, header, &empty_record(alloc, number)?)? {
            taken = number;
        }
    }
    Ok(taken)
}

/// What the journal answers to a record.
enum Answer {
    Added,
    /// It is none of the store.
    NoRecord,
    Refused(JournalFault),
    NoMemory,
}

/// Adds a record, if it is one of the store.
fn add_next(alloc: Global, journal: &mut Journal<MemDisk>, header: &Header, next: &Record) -> Answer
    requires { journal.old.header ≡ header.now }
    ensures { journal.new.header ≡ journal.old.header }
{
    let Some(number) = journal.count().checked_add(1) else {
        return Answer::NoRecord;
    };
    match is_record(alloc, header, number, next) {
        Ok(true) => match journal.append(alloc, next) {
            Ok(()) => Answer::Added,
            Err(fault) => Answer::Refused(fault),
        },
        Ok(false) => Answer::NoRecord,
        Err(_) => Answer::NoMemory,
    }
}

fn print_added(rt: &impl Print, name: &str, answer: Answer) -> io::Result<()> {
    match answer {
        Answer::Added => println!(rt; "{name}: added"),
        Answer::NoRecord => println!(rt; "{name}: no record of the store"),
        Answer::Refused(fault) => println!(rt; "{name}: {fault}"),
        Answer::NoMemory => println!(rt; "{name}: out of memory"),
    }
}

/// Prints how many snapshots a store takes, what it answers when it is full, and that it is read
/// again.
pub fn print_full_store(rt: &impl Print, alloc: Global) -> io::Result<()> {
    let header = empty_header();
    let mut disk = quiet_disk(alloc, Vec::new(alloc));
    println!(rt; "full store: made {}", init(&mut disk, &header).is_ok())?;
    match Journal::open(alloc, disk, &header) {
        Ok(mut journal) => {
            print_fill(rt, alloc, &mut journal, &header)?;
            print_again(rt, alloc, journal.into_disk().bytes())
        }
        Err((fault, _)) => println!(rt; "full store: {fault}"),
    }
}

/// Fills a store, which takes no snapshot then.
fn print_fill(
    rt: &impl Print,
    alloc: Global,
    journal: &mut Journal<MemDisk>,
    header: &Header,
) -> io::Result<()>
    requires { journal.old.header ≡ header.now }
{
    match taken(alloc, journal, header, MOST + 1) {
        Ok(count) => println!(rt; "full store: snapshots taken {count}")?,
        Err(fault) => println!(rt; "full store: {fault}")?,
    }
    match empty_record(alloc, MOST + 1) {
        Ok(next) => print_added(
            rt,
            "full store, one more",
            add_next(alloc, journal, header, &next),
        ),
        Err(fault) => println!(rt; "full store: {fault}"),
    }
}

/// Prints how many of them are read again.
fn print_again(rt: &impl Print, alloc: Global, bytes: &[u8]) -> io::Result<()> {
    let disk = quiet_disk(alloc, Vec::from_slice(alloc, bytes)?);
    match Journal::open(alloc, disk, &empty_header()) {
        Ok(mut journal) => print_last(rt, alloc, bytes.len(), &mut journal),
        Err((fault, _)) => println!(rt; "full store: {fault}"),
    }
}

fn print_last(
    rt: &impl Print,
    alloc: Global,
    size: usize,
    journal: &mut Journal<MemDisk>,
) -> io::Result<()> {
    let count = journal.count();
    match journal.last(alloc) {
        Ok(Some(last)) => println!(rt;
            "full store, bytes {size} read again: snapshots {count}, the last {}",
            last.number
        ),
        _ => println!(rt; "full store, bytes {size} read again: none"),
    }
}

/// Prints what a journal answers behind a failed call of the disk.
pub fn print_failed_journal(rt: &impl Print, alloc: Global) -> io::Result<()> {
    let header = header();
    let mut disk = MemDisk::new(alloc, Vec::new(alloc), vec![in alloc; 9]?, u64::MAX);
    println!(rt; "failed journal: made {}", init(&mut disk, &header).is_ok())?;
    match Journal::open(alloc, disk, &header) {
        Ok(mut journal) => print_failed(rt, alloc, &mut journal, &header),
        Err((fault, _)) => println!(rt; "failed journal: {fault}"),
    }
}

/// Adds records to a store whose disk fails at the first.
fn print_failed(
    rt: &impl Print,
    alloc: Global,
    journal: &mut Journal<MemDisk>,
    header: &Header,
) -> io::Result<()>
    requires { journal.old.header ≡ header.now }
{
    let (Ok(first), Ok(second)) = (first(alloc), second(alloc)) else {
        return println!(rt; "failed journal: out of memory");
    };
    print_added(
        rt,
        "record at which the disk fails",
        add_next(alloc, journal, header, &first),
    )?;
    print_added(
        rt,
        "the same record again",
        add_next(alloc, journal, header, &first),
    )?;
    print_added(
        rt,
        "the second record",
        add_next(alloc, journal, header, &second),
    )
}
