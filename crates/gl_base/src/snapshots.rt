//! Snapshots: the parts that machines save, the records of a store, and what a run begins from.
use crate::{EdgeNo, Entry, Vertex};

/// What one machine saved for a snapshot: the numbers of its vertices, and those of edges.
#[derive(Drop)]
pub struct SavedPart {
    pub vertices: Vec<(Vertex, u64)>,
    pub edges: Vec<(EdgeNo, u64)>,
}

/// A snapshot as it is stored: its number, the entries that the one before has not, and the part of
/// each machine.
#[derive(Drop)]
pub struct Record {
    pub number: u32,
    pub entries: Vec<Entry>,
    pub sections: Vec<SavedPart>,
}

/// What a run begins from: the last snapshot, with its whole order and one number for each vertex
/// and each edge, or number 0, the empty order and the numbers at the start. `length` is how many
/// bytes of the store are in use, 0 without one.
#[derive(Drop)]
pub struct Base {
    pub number: u32,
    pub order: Vec<Entry>,
    pub values: Vec<u64>,
    pub edges: Vec<u64>,
    pub length: u64,
}
