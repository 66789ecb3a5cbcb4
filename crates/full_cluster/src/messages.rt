//! What machines tell one another.
use crate::FullGift;
use gl_base::{MachineNo, ScopeId, Vertex};

/// What one machine tells another one. `seen` has the numbers that a scope has gathered so far.
#[derive(Drop)]
pub enum FullMessage {
    /// The scope of this centre asks for its locks here, and then at the machines `rest` in turn.
    Gather {
        scope: ScopeId,
        centre: Vertex,
        rest: Vec<MachineNo>,
        seen: Vec<(Vertex, u64)>,
    },
    /// The scope has all its locks.
    Home {
        scope: ScopeId,
        seen: Vec<(Vertex, u64)>,
    },
    /// The scope's update was made.
    Give {
        scope: ScopeId,
        gift: FullGift,
    },
}
