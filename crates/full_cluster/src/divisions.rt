//! A graph that is divided among machines.
ghost use Rattle.std.specs.Prelude.{◌≡◌, ◌<◌, false, length, None, IfSome};
ghost use Rattle.graph_core.specs.DataGraph.{size, IsDataGraph};
ghost use Rattle.full_cluster.specs.Owners.{owner_in};
ghost use Rattle.full_scope.proofs.GraphProps.{graph_prop};

use gl_base::{MachineNo, Vertex};
use graph_core::Graph;

/// A graph whose edges have no direction, and the machine that owns each vertex.
#[derive(Drop)]
pub struct Division<'a> {
    pub graph: &'a Graph,
    pub owner: &'a [MachineNo],
    ghost built: { IsDataGraph graph.now } by { graph_prop graph.now },
    ghost undirected: { graph.now.directed ≡ false },
    ghost owned: { length owner.now ≡ size graph.now },
}

impl<'a> Division<'a> {
    /// The division of a graph by a list of owners; `None` exactly where edges have a direction, or
    /// there are not as many owners as vertices.
    pub fn new(graph: &'a Graph, owner: &'a [MachineNo]) -> Option<Division<'a>>
        ensures graph { IfSome result (λ division. division.graph.now ≡ graph.now) }
        ensures owners { IfSome result (λ division. division.owner.now ≡ owner.now) }
        ensures none { result ≡ None →
            graph.now.directed ≡ false → length owner.now ≡ size graph.now → ⊥ }
    {
        if graph.directed() || graph.n() as usize != owner.len() {
            return None;
        }
        Some(Division { graph, owner })
    }

    /// The machine that owns a vertex.
    pub fn owner_of(&self, v: Vertex) -> MachineNo
        requires { v.0 < size self.now.graph.now }
        ensures { result.0 ≡ owner_in self.now.owner.now v.0 }
    {
        self.owner[v.0 as usize]
    }
}
