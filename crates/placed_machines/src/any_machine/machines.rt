//! A machine that takes part in snapshots, with locks or by colours.
use crate::chromatic::ChromaticMachine;
use snapshot_machines::locking::LockingMachine;
use update_api::Program;

/// A machine that takes part in snapshots, as its engine wants it.
#[derive(Drop)]
pub enum AnyMachine<P: Program> {
    /// Its scopes take locks.
    Locking(LockingMachine<P>),
    /// Its vertices run by colours.
    Chromatic(ChromaticMachine<P>),
}
