//! A store in memory.
use crate::trouble::Trouble;
use gl_base::Record;
use gl_outside::MemDisk;
use graph_core::Graph;
use std::alloc::Global;
use store::snap_journal::{Journal, init};
use store::store_format::{Digest, Header, is_record};

/// A store in memory that is open.
pub type Store = Journal<MemDisk>;

/// Makes a store without snapshots, for so many machines and this graph.
pub fn empty_store(alloc: Global, graph: &Graph, machines: u16) -> Result<Store, Trouble> {
    if machines < 1 || machines > 16 {
        return Err(Trouble::Because("there are too many machines"));
    }
    let header = Header {
        machines,
        algorithm: 2,
        directed: 0,
        source: 0,
        n: graph.n(),
        m: graph.m(),
        digest: Digest([7; 32]),
    };
    let mut disk = MemDisk::new(alloc, Vec::new(alloc), Vec::new(alloc), u64::MAX);
    if init(&mut disk, &header).is_err() {
        drop(disk);
        return Err(Trouble::Because("no store is made"));
    }
    opened(alloc, disk, &header)
}

/// Opens the store on the disk.
fn opened(alloc: Global, disk: MemDisk, header: &Header) -> Result<Store, Trouble> {
    match Journal::open(alloc, disk, header) {
        Ok(store) => Ok(store),
        Err(_) => Err(Trouble::Because("the store is not opened")),
    }
}

/// Takes the store and opens it again.
pub fn opened_again(alloc: Global, store: &mut Option<Store>) -> Result<Store, Trouble> {
    let Some(store) = store.take() else {
        return Err(Trouble::Because("the store is gone"));
    };
    let header = store.header();
    opened(alloc, store.into_disk(), &header)
}

/// Adds a record to the store, which has to be in the form of one.
pub fn append(alloc: Global, store: &mut Option<Store>, record: &Record) -> Result<(), Trouble> {
    let Some(mut open) = store.take() else {
        return Err(Trouble::Because("the store is gone"));
    };
    let outcome = append_to(alloc, &mut open, record);
    *store = Some(open);
    outcome
}

/// Adds a record to a store that is open.
fn append_to(alloc: Global, open: &mut Store, record: &Record) -> Result<(), Trouble> {
    if open.count() >= 4096 {
        return Err(Trouble::Because("the store is full"));
    }
    let header = open.header();
    if !is_record(alloc, &header, 1 + open.count(), record)? {
        return Err(Trouble::Because("the record is not in the form of a store"));
    }
    if open.append(alloc, record).is_err() {
        return Err(Trouble::Because("the record is not stored"));
    }
    Ok(())
}
