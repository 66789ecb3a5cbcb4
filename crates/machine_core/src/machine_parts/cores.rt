//! The parts of a machine together.
use crate::machine_parts::spare::SpareParts;
use gl_base::Vertex;
use partition::machine_numbers::Numbers;
use scope_locks::scope_pipe::ScopePipe;
use scope_locks::vertex_locks::LockTable;
use wire::outboxes::Outboxes;

/// What a machine goes by through a run: how many of its scopes may be in flight, the number of the
/// snapshot that the run began with, and whether scopes take locks; else vertices go by colours,
/// and a scope is ready as soon as it is admitted.
#[derive(Clone, Copy)]
pub struct Terms {
    pub pipeline: u16,
    pub base: u32,
    pub locks: bool,
}

/// The parts of a machine: its numbers, its own vertices in the order of their places there, the
/// scopes that it admitted and those that have come to it, its locks, and what waits to be sent.
/// Contracts see each part as it is seen alone.
#[derive(Drop)]
pub struct Core {
    pub terms: Terms,
    pub numbers: Numbers,
    pub by_place: Vec<Vertex>,
    pub pipe: ScopePipe,
    pub locks: LockTable,
    pub out: Outboxes,
    pub spare: SpareParts,
}
