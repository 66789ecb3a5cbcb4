//! The store with other bytes.
use crate::samples::{GATES, STORE};
use crate::series::Series;
use crate::stored::{fault_of, print_fault, read_store};
use std::alloc::{AllocError, Global};
use std::io;
use store::snap_journal::{JournalFault, StoreFault};

/// Prints what cuts of the store, other bytes in its header and in its records, and closed gates
/// are read as.
pub fn print_edits(rt: &impl Print, alloc: Global) -> io::Result<()> {
    print!(rt; "missing byte of the store, after each number of bytes:")?;
    for count in 0..STORE.len() {
        print_cut(rt, alloc, &STORE[..count])?;
    }
    println!(rt; "")?;
    for (place, byte) in STORE[..64].iter().enumerate() {
        print!(rt; "header with byte {place} raised: ")?;
        print_edit(rt, alloc, place, byte.wrapping_add(1))?;
    }
    for (place, byte) in &EDITS {
        print!(rt; "record with byte {place} set to {byte}: ")?;
        print_edit(rt, alloc, *place, *byte)?;
    }
    for gate in &GATES {
        print_gate(rt, alloc, *gate)?;
    }
    Ok(())
}

/// Bytes at places of the records: lengths one off, a number that is not the next, a count of
/// entries, a vertex that is none, one that stands twice, a section that lacks one, an edge that is
/// none, and of entries the kind, the zero, the machine, the vertex, a ticket that is too great,
/// one that falls, and a restart of a machine.
static EDITS: [(usize, u8); 15] = [
    (72, 61),
    (72, 59),
    (76, 2),
    (80, 1),
    (88, 2),
    (108, 0),
    (104, 0),
    (124, 1),
    (150, 3),
    (151, 1),
    (153, 2),
    (157, 2),
    (158, 1),
    (165, 2),
    (169, 1),
];

fn print_cut(rt: &impl Print, alloc: Global, cut: &[u8]) -> io::Result<()> {
    match fault_of(alloc, Vec::from_slice(alloc, cut)?) {
        Some(JournalFault::BadStore(StoreFault::Torn(place))) => print!(rt; " {place}"),
        Some(fault) => print!(rt; " {fault}"),
        None => print!(rt; " no fault"),
    }
}

fn print_edit(rt: &impl Print, alloc: Global, place: usize, byte: u8) -> io::Result<()> {
    let bytes = with_byte(alloc, place, byte)?;
    print_fault(rt, fault_of(alloc, bytes))
}

/// The store with this byte at a place.
fn with_byte(alloc: Global, place: usize, byte: u8) -> Result<Vec<u8>, AllocError> {
    let mut bytes = Vec::from_slice(alloc, &STORE)?;
    if let Some(here) = bytes.get_mut(place) {
        *here = byte;
    }
    Ok(bytes)
}

/// A gate that isn't open ends the store, whatever its byte is and whatever stands behind it.
fn print_gate(rt: &impl Print, alloc: Global, gate: usize) -> io::Result<()> {
    println!(rt; "store with another byte in gate {gate}, and three bytes behind its end")?;
    let mut series = Series::new();
    for byte in 0..256u16 {
        if byte != 1 {
            let bytes = closed(alloc, gate, byte as u8)?;
            series.go_on(rt, "byte", u64::from(byte), read_store(alloc, bytes))?;
        }
    }
    series.end(rt, "byte", 256)
}

fn closed(alloc: Global, gate: usize, byte: u8) -> Result<Vec<u8>, AllocError> {
    let mut bytes = with_byte(alloc, gate, byte)?;
    bytes.extend_from_slice(&[1, 0, 255])?;
    Ok(bytes)
}
