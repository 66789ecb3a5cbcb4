//! What a seat has.
use cluster_step::clusters::Coordinator;
use gl_base::{ScopeId, Vertex};

/// A machine, with its number and how many peers there are: the machines and the coordinator.
#[derive(Drop)]
pub struct Member<M> {
    pub number: usize,
    pub peers: usize,
    pub machine: M,
}

/// The update whose ticket a machine has drawn, and which it makes before anything else.
#[derive(Clone, Copy)]
pub enum Owed {
    Nothing,
    /// The update of a ready scope, under this ticket.
    Update(ScopeId, u64),
    /// The update at once of a vertex, under this ticket.
    AtOnce(Vertex, u64),
}

/// A machine as it was at its seat's last step, and what it has owed since then.
#[derive(Drop)]
pub struct Standing<M> {
    pub member: Member<M>,
    pub owed: Owed,
}

/// The coordinator, with its number: it follows those of the machines.
#[derive(Drop)]
pub struct Leading {
    pub number: usize,
    pub coordinator: Coordinator,
}

/// What one seat has.
#[derive(Drop)]
pub enum Seated<M> {
    Node(Standing<M>),
    Lead(Leading),
}
