//! Stores that are read.
use crate::samples::header;
use crate::snaps::print_entries;
use gl_base::{Base, NoMemory};
use gl_outside::MemDisk;
use std::alloc::Global;
use std::io;
use store::snap_journal::{Journal, JournalFault, StoreFault};
use store::store_format::{Digest, ProgramKey};

/// A disk with these bytes, on which no call fails.
pub fn quiet_disk(alloc: Global, bytes: Vec<u8>) -> MemDisk {
    MemDisk::new(alloc, bytes, Vec::new(alloc), u64::MAX)
}

/// Why bytes are refused.
pub fn fault_of(alloc: Global, bytes: Vec<u8>) -> Option<JournalFault> {
    match Journal::open(alloc, quiet_disk(alloc, bytes), &header()) {
        Ok(_) => None,
        Err((fault, _)) => Some(fault),
    }
}

/// Prints why bytes are refused, with what was stored and what was given.
pub fn print_fault(rt: &impl Print, fault: Option<JournalFault>) -> io::Result<()> {
    match fault {
        Some(JournalFault::BadStore(StoreFault::Program { kept, given })) => {
            print_programs(rt, kept, given)
        }
        Some(JournalFault::BadStore(StoreFault::Graph { kept, given })) => {
            print_graphs(rt, &kept, &given)
        }
        Some(fault) => println!(rt; "{fault}"),
        None => println!(rt; "no fault"),
    }
}

fn print_programs(rt: &impl Print, kept: ProgramKey, given: ProgramKey) -> io::Result<()> {
    print!(rt;
        "stored for algorithm {}, directed {}, source {}, ",
        kept.algorithm, kept.directed, kept.source
    )?;
    println!(rt;
        "given {}, {}, {}",
        given.algorithm, given.directed, given.source
    )
}

fn print_graphs(rt: &impl Print, kept: &Digest, given: &Digest) -> io::Result<()> {
    print!(rt; "stored for graph ")?;
    print_digest(rt, kept)?;
    print!(rt; ", given ")?;
    print_digest(rt, given)?;
    println!(rt; "")
}

fn print_digest(rt: &impl Print, digest: &Digest) -> io::Result<()> {
    for byte in &digest.0 {
        print!(rt; "{byte:02x}")?;
    }
    Ok(())
}

/// What bytes are read as: how many snapshots there are, and the last one.
#[derive(Drop)]
pub struct Stored {
    pub count: u32,
    pub last: Option<Base>,
}

/// What bytes are read as, if they are a store.
pub fn read_store(alloc: Global, bytes: Vec<u8>) -> Result<Stored, JournalFault> {
    match Journal::open(alloc, quiet_disk(alloc, bytes), &header()) {
        Ok(mut journal) => last_of(alloc, &mut journal),
        Err((fault, _)) => Err(fault),
    }
}

fn last_of(alloc: Global, journal: &mut Journal<MemDisk>) -> Result<Stored, JournalFault> {
    let last = journal.last(alloc)?;
    let count = journal.count();
    Ok(Stored { count, last })
}

/// Prints what bytes are read as.
pub fn print_stored(rt: &impl Print, stored: &Result<Stored, JournalFault>) -> io::Result<()> {
    match stored {
        Ok(
            Stored {
                count,
                last: Some(base),
            },
        ) => print_base(rt, *count, base),
        Ok(Stored { count, .. }) => println!(rt; "snapshots {count}"),
        Err(fault) => println!(rt; "{fault}"),
    }
}

fn print_base(rt: &impl Print, count: u32, base: &Base) -> io::Result<()> {
    print!(rt;
        "snapshots {count}, the last {}: vertices {:?}, edges {:?}, bytes {}, order",
        base.number, base.values, base.edges, base.length
    )?;
    print_entries(rt, &base.order)?;
    println!(rt; "")
}

/// Whether two stores are read alike.
pub fn are_alike(one: &Result<Stored, JournalFault>, other: &Result<Stored, JournalFault>) -> bool {
    match (one, other) {
        (Ok(one), Ok(other)) => one.count == other.count && are_alike_bases(&one.last, &other.last),
        (Err(one), Err(other)) => one == other,
        _ => false,
    }
}

fn are_alike_bases(one: &Option<Base>, other: &Option<Base>) -> bool {
    match (one, other) {
        (Some(one), Some(other)) => {
            one.number == other.number
                && one.order.as_slice() == other.order.as_slice()
                && one.values.as_slice() == other.values.as_slice()
                && one.edges.as_slice() == other.edges.as_slice()
                && one.length == other.length
        }
        (None, None) => true,
        _ => false,
    }
}
