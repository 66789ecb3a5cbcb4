//! Orders of updates.
use crate::{MachineNo, Vertex};

/// An entry of an order. Tickets tell in which order the updates count. The ticket stands last,
/// where an entry takes 16 bytes: an order may be long.
#[derive(Clone, Copy, Debug, PartialEq, Eq)]
pub enum Entry {
    /// An update of a vertex, by the machine that owns it.
    Go {
        machine: MachineNo,
        vertex: Vertex,
        ticket: u64,
    },
    /// A recovery: every vertex is scheduled again. `ticket` is the least that a later update may
    /// have.
    Restart {
        ticket: u64,
    },
}
