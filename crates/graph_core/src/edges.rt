//! Edges between vertex numbers.
use crate::sorting::HasKey;
use gl_base::Vertex;

/// An edge between vertex numbers. Where edges have no direction, `from` is the lower one.
#[derive(Clone, Copy)]
pub struct Edge {
    pub from: Vertex,
    pub to: Vertex,
    pub weight: u32,
}

impl HasKey for Edge {
    ghost use Rattle.graph_core.specs.Inner.NumberedEdges.{ends_key};

    ghost key = { ends_key };

    fn key(&self) -> u64 {
        let from = self.from.0;
        let to = self.to.0;
        u64::from(from) * (1 << 32) + u64::from(to)
    }
}
