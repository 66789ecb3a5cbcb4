//! What a run is asked to do.
use crate::{MachineNo, Name};

/// What is computed of each vertex.
#[derive(Clone, Copy, Debug, PartialEq, Eq)]
pub enum Algorithm {
    /// How many edges the vertex is away from the source.
    Levels,
    /// The least identifier in the vertex's weakly connected component.
    Components,
    /// How far the vertex is from the source, by weights.
    Paths,
    /// A number that no neighbour has.
    Colours,
    /// The core number: the greatest k for which the vertex lies in a part of the graph whose
    /// vertices all have at least k neighbours in that part. Edges have no direction.
    Cores,
    /// The identifier of the neighbour with which the vertex is matched, so that no two neighbours
    /// are left unmatched. Edges have no direction. An update writes the number of a neighbour too,
    /// as that of no other algorithm does.
    Pairs,
}

/// How updates that run side by side are kept apart.
#[derive(Clone, Copy)]
pub enum EngineKind {
    /// By reader-writer locks on each update's scope.
    Locking,
    /// By a colouring of the graph, one colour after another.
    Chromatic,
}

/// A failure that is ordered: the machine stops when it has completed so many updates.
#[derive(Clone, Copy, PartialEq, Eq)]
pub struct FailureAt {
    pub machine: MachineNo,
    pub after: u64,
}

/// A job. A field that may be absent is `None` exactly where its key was, and each other field has
/// its key's value or the default.
#[derive(Drop)]
pub struct Job {
    pub vertices: Name,
    pub edges: Name,
    pub directed: bool,
    pub algorithm: Algorithm,
    pub source: Option<u64>,
    pub engine: EngineKind,
    pub machines: u16,
    pub atoms: u16,
    pub pipeline: u16,
    pub budget: u64,
    pub window: u32,
    pub store: Option<Name>,
    pub atoms_at: Option<Name>,
    pub order: Option<Name>,
    pub failures: Vec<FailureAt>,
}

/// The graph that `make` writes.
#[derive(Clone, Copy)]
pub struct MakePlan {
    pub number: u32,
    pub vertices: u32,
    pub edges: u32,
    pub weight: Option<u32>,
}
