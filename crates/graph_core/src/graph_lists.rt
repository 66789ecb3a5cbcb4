//! What a graph is built of, and why lists make none.
use gl_base::NoMemory;
use std::alloc::AllocError;
use thiserror::Error;

/// An edge between two identifiers.
#[derive(Clone, Copy)]
pub struct EdgeIn {
    pub from: u64,
    pub to: u64,
    pub weight: u32,
}

/// The first fault of the lists of a graph. Places count from 0 in the list of identifiers or of
/// edges.
#[derive(Clone, Copy, Debug, PartialEq, Eq, Error)]
pub enum GraphFault {
    /// The identifier at this place stands before it too.
    #[error("identifier {0} stands before it too")]
    DoubleVertex(usize),
    /// An end of the edge at this place is no identifier of the list.
    #[error("an end of edge {0} is no vertex")]
    UnknownVertex(usize),
    /// The edge at this place has two equal ends.
    #[error("the ends of edge {0} are the same")]
    SelfLoop(usize),
    /// The edge at this place stands before it too, either way round where edges have no direction.
    #[error("edge {0} stands before it too")]
    DoubleEdge(usize),
    #[error("out of memory")]
    NoMemory,
}

impl From<AllocError> for GraphFault {
    ghost use Rattle.std.specs.Prelude.{◌≡◌};
    ghost use Rattle.graph_core.specs.declared.graph_lists.GraphFault.TheVariants.{NoMemory};

    ghost from_gives = { λ _ fault. fault ≡ NoMemory };

    fn from(_: AllocError) -> Self {
        GraphFault::NoMemory
    }
}

impl From<NoMemory> for GraphFault {
    ghost use Rattle.std.specs.Prelude.{◌≡◌};
    ghost use Rattle.graph_core.specs.declared.graph_lists.GraphFault.TheVariants.{NoMemory};

    ghost from_gives = { λ _ fault. fault ≡ NoMemory };

    fn from(_: NoMemory) -> Self {
        GraphFault::NoMemory
    }
}
