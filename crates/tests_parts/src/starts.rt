//! What a run goes on from.
use crate::graphs::graph_of;
use crate::samples::{STORE, header};
use crate::stored::quiet_disk;
use gl_base::Base;
use gl_outside::MemDisk;
use graph_core::Graph;
use graph_programs::prog_labels::Components;
use recovery::recover;
use std::alloc::{AllocError, Global};
use std::io;
use store::snap_journal::Journal;

/// Prints what is recovered from the store without snapshots, and with both.
pub fn print_starts(rt: &impl Print, alloc: Global) -> io::Result<()> {
    match graph_of(alloc, &[3, 8], &[(3, 8)], false) {
        Ok(graph) => {
            print_start(rt, alloc, "no snapshot", &graph, without_snapshots(alloc)?)?;
            print_start(rt, alloc, "both", &graph, Vec::from_slice(alloc, &STORE)?)
        }
        Err(fault) => println!(rt; "starts: {fault}"),
    }
}

/// The store before its first snapshot.
fn without_snapshots(alloc: Global) -> Result<Vec<u8>, AllocError> {
    let mut bytes = Vec::from_slice(alloc, &STORE[..64])?;
    bytes.push(0)?;
    Ok(bytes)
}

fn print_start(
    rt: &impl Print,
    alloc: Global,
    name: &str,
    graph: &Graph,
    bytes: Vec<u8>,
) -> io::Result<()> {
    match Journal::open(alloc, quiet_disk(alloc, bytes), &header()) {
        Ok(mut journal) => print_recovered(rt, alloc, name, graph, &mut journal),
        Err((fault, _)) => println!(rt; "recovered from {name}: {fault}"),
    }
}

fn print_recovered(
    rt: &impl Print,
    alloc: Global,
    name: &str,
    graph: &Graph,
    journal: &mut Journal<MemDisk>,
) -> io::Result<()> {
    match recover(alloc, journal, graph, &Components) {
        Ok(base) => print_base(rt, name, &base),
        Err(_) => println!(rt; "recovered from {name}: failed"),
    }
}

fn print_base(rt: &impl Print, name: &str, base: &Base) -> io::Result<()> {
    println!(rt;
        "recovered from {name}: number {}, bytes {}, vertices {:?}, edges {:?}",
        base.number, base.length, base.values, base.edges
    )
}
