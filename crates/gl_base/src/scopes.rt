//! What machines tell one another of: scopes and their locks, numbers with their versions, peers,
//! and counts.
use crate::MachineNo;

/// A scope: an update that was admitted at its home machine, the owner of its centre. Serials count
/// from 0 at each home.
#[derive(Clone, Copy, Debug, PartialEq, Eq)]
pub struct ScopeId {
    pub home: MachineNo,
    pub serial: u64,
}

/// How a scope locks a vertex.
#[derive(Clone, Copy, PartialEq, Eq)]
pub enum Mode {
    /// Beside other readers: a neighbour of the centre.
    Reader,
    /// Alone: the centre.
    Writer,
}

/// A scope's hold of the lock of a vertex, or its request for it.
#[derive(Clone, Copy, PartialEq, Eq)]
pub struct Claim {
    pub scope: ScopeId,
    pub mode: Mode,
}

/// What a machine keeps of a vertex, its own or a ghost: its number, how often number or mark
/// changed, and the last snapshot that has saved it.
#[derive(Clone, Copy, PartialEq, Eq)]
pub struct Datum {
    pub value: u64,
    pub version: u32,
    pub mark: u32,
}

/// An end of a link.
#[derive(Clone, Copy)]
pub enum Peer {
    Machine(MachineNo),
    Coordinator,
}

/// What a machine answers to a wave: how many messages it has sent to and received from other
/// machines, how many updates it has completed in this attempt, and whether it has no task, no
/// scope and no pending vertex.
#[derive(Clone, Copy)]
pub struct Counted {
    pub sent: u64,
    pub received: u64,
    pub updates: u64,
    pub idle: bool,
}
