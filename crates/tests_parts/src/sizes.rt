//! The bytes of a store as it is made and grows.
use crate::samples::STORE;
use crate::stops::{Filled, filled_store};
use gl_base::NoMemory;
use std::alloc::Global;
use std::io;

/// After how many calls the disk stops.
static STOPS: [u64; 7] = [0, 1, 2, 3, 7, 11, 15];

/// Prints how many bytes a store has. It takes three calls to make it, of which the second writes,
/// four to open it and four for each of its two records.
pub fn print_sizes(rt: &impl Print, alloc: Global) -> io::Result<()> {
    for stop in &STOPS {
        print_size(rt, *stop, &filled_store(alloc, Vec::new(alloc), *stop))?;
    }
    Ok(())
}

fn print_size(rt: &impl Print, stop: u64, filled: &Result<Filled, NoMemory>) -> io::Result<()> {
    match filled {
        Ok(filled) => print_filled(rt, stop, filled),
        Err(fault) => println!(rt; "store of {stop} calls: {fault}"),
    }
}

fn print_filled(rt: &impl Print, stop: u64, filled: &Filled) -> io::Result<()> {
    let (size, stored) = (filled.bytes.len(), filled.stored);
    let is_sample = filled.bytes.as_slice() == STORE.as_slice();
    println!(rt;
        "store of {stop} calls: bytes {size}, acknowledged {stored}, those of the format {is_sample}"
    )
}
