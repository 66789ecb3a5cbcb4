//! Runs of a program with a store.
use gl_base::{EngineKind, Entry, FailureAt, Vertex};
use graph_atoms::atom_gather::Cut;
use graph_core::Graph;
use placement::plans::RunPlan;

/// A snapshot that was acknowledged: its number, how many entries its order has, and what the
/// numbers of its vertices come to.
#[derive(Clone, Copy)]
pub struct SnapLine {
    pub number: u32,
    pub entries: u64,
    pub reached: u64,
    pub sum: u128,
    pub max: u64,
}

/// How a run with a store ended.
#[derive(Clone, Copy)]
pub enum StoredEnd {
    /// No vertex is left to be updated; and where the end is saved, the last snapshot is of the
    /// whole order.
    Finished,
    /// So many updates were made as the budget has, and this vertex is to be updated all the same.
    Spent(Vertex),
    /// A snapshot was due, and the store has no room for it: it has so many snapshots and bytes.
    Full { stored: u32, length: u64 },
    /// The store could not be read or written.
    DiskFault,
}

/// How a program is run with a store: how the graph is placed and the program run on it, how many
/// updates of one machine may be outside the last snapshot that was acknowledged, how updates are
/// kept apart, and whether a snapshot is taken of the end.
#[derive(Clone, Copy)]
pub struct StoredPlan {
    pub run: RunPlan,
    pub window: u32,
    pub engine: EngineKind,
    pub saves_end: bool,
}

/// How the machines of a run are made: how the graph is placed and the program run on it, how
/// updates are kept apart, and how many updates of one machine may be outside the last snapshot
/// that was acknowledged. Without a window no snapshots are taken.
#[derive(Clone, Copy)]
pub struct MachinePlan {
    pub run: RunPlan,
    pub engine: EngineKind,
    pub window: Option<u32>,
}

/// What a run with a store is made from: the graph, how it is cut, the failures of machines, and
/// how the program is run.
#[derive(Clone, Copy)]
pub struct RunInput<'a> {
    pub graph: &'a Graph,
    pub cut: &'a Cut,
    pub failures: &'a [FailureAt],
    pub plan: StoredPlan,
}

/// What a run without a store is made from: the graph, how it is cut, the failures of machines, how
/// the graph is placed and the program run on it, and how updates are kept apart.
#[derive(Clone, Copy)]
pub struct UnstoredInput<'a> {
    pub graph: &'a Graph,
    pub cut: &'a Cut,
    pub failures: &'a [FailureAt],
    pub plan: RunPlan,
    pub engine: EngineKind,
}

/// A run with a store: the order to which it led, the updates that failures took away, how many
/// updates each machine made, which of the failures fired by their places, the snapshots that were
/// acknowledged, the numbers of the vertices, and how it ended.
#[derive(Drop)]
pub struct StoredRun {
    pub order: Vec<Entry>,
    pub lost: Vec<Entry>,
    pub done: Vec<u64>,
    pub fired: Vec<u16>,
    pub snapshots: Vec<SnapLine>,
    pub numbers: Vec<u64>,
    pub end: StoredEnd,
}
