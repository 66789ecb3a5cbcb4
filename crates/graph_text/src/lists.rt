//! What the readers give.
ghost use Rattle.std.specs.Prelude.{◌≡◌, length};
ghost use Rattle.graph_text.specs.Ids.{AreIds};
ghost use Rattle.graph_text.specs.Inner.Settled.{place_of, IsPlacedIn, refused_at};

use crate::lines::Unread;
use gl_base::{TextFault, TextFile, TextKind};
use graph_core::GraphFault;
use thiserror::Error;

/// The identifiers of the vertices, ascending.
#[derive(Drop)]
pub struct VertexList {
    pub ids: Vec<u64>,
    ghost are_ids: { AreIds ids.items },
}

/// Why a text was not read.
#[derive(Clone, Copy, Debug, Error)]
pub enum Reading {
    /// The text is refused, for this fault.
    #[error("{0}")]
    Text(TextFault),
    /// The source failed.
    #[error("a read failed")]
    ReadFault,
    /// There was not enough memory.
    #[error("out of memory")]
    NoMemory,
}

impl From<Unread> for Reading {
    ghost use Rattle.graph_text.specs.Answers.{as_reading};

    ghost from_gives = { λ unread reading. reading ≡ as_reading unread };

    fn from(unread: Unread) -> Self {
        match unread {
            Unread::ReadFault => Reading::ReadFault,
            Unread::NoMemory => Reading::NoMemory,
        }
    }
}

/// Why a text is not read whose items make no graph, where each has its line.
pub(crate) fn refusal(file: TextFile, fault: GraphFault, places: &[u32]) -> Reading
    requires { IsPlacedIn (length places.now) fault }
    ensures { result ≡ refused_at file places.now (place_of fault) }
{
    let (place, kind) = match fault {
        GraphFault::DoubleVertex(place) => (place, TextKind::Double),
        GraphFault::UnknownVertex(place) => (place, TextKind::Unknown),
        GraphFault::SelfLoop(place) => (place, TextKind::SelfLoop),
        GraphFault::DoubleEdge(place) => (place, TextKind::Double),
        GraphFault::NoMemory => return Reading::NoMemory,
    };
    Reading::Text(text_fault(file, places[place], kind))
}

/// A fault of a text.
pub(crate) fn text_fault(file: TextFile, line: u32, kind: TextKind) -> TextFault
    ensures { result ≡ record { file = file; line = line; kind = kind } }
{
    TextFault { file, line, kind }
}
