//! The digest of a graph.
ghost use Rattle.std.specs.Prelude.{◌≡◌, ℕ, List, ◌++◌, ◌∷◌, [], if◌then◌else◌, length};
ghost use Rattle.std.specs.Int.{to_be_bytes, w32, w64};
ghost use Rattle.std.specs.List.{flat_map};
ghost use Rattle.sha2.specs.Sha256.{sha256};
ghost use Rattle.graph_core.specs.DataGraph.{size};
ghost use Rattle.graph_core.specs.Digest.{edge_bytes, digest_bytes};

use crate::Graph;
use gl_base::{EdgeNo, Vertex};
use sha2::{Digest, Sha256};

/// The SHA-256 of a graph (FIPS 180-4). It is fed in pieces, and takes no memory.
pub fn digest(graph: &Graph) -> [u8; 32]
    ensures { result ≡ sha256 (digest_bytes graph.now) }
{
    let mut hasher = Sha256::new();
    feed_head(&mut hasher, graph);
    feed_ids(&mut hasher, graph);
    feed_edges(&mut hasher, graph);
    hasher.finalize()
}

/// Feeds whether edges have a direction, and how many vertices and edges there are.
fn feed_head<D: Digest>(hasher: &mut D, graph: &Graph)
    ensures { (fed : List ℕ) → D.holds hasher.old fed →
        D.holds hasher.new (fed ++ (((if graph.now.directed then 1
        else 0) ∷ []) ++ to_be_bytes w32 (size graph.now) ++ to_be_bytes w32
        (length graph.now.edges))) }
{
    hasher.update([u8::from(graph.directed())]);
    hasher.update(graph.n().to_be_bytes());
    hasher.update(graph.m().to_be_bytes());
}

/// Feeds the identifiers.
fn feed_ids<D: Digest>(hasher: &mut D, graph: &Graph)
    ensures { (fed : List ℕ) → D.holds hasher.old fed →
        D.holds hasher.new (fed ++ flat_map (to_be_bytes w64) graph.now.ids) }
{
    for v in 0..graph.n() {
        hasher.update(graph.id(Vertex(v)).to_be_bytes());
    }
}

/// Feeds the edges.
fn feed_edges<D: Digest>(hasher: &mut D, graph: &Graph)
    ensures { (fed : List ℕ) → D.holds hasher.old fed →
        D.holds hasher.new (fed ++ flat_map edge_bytes graph.now.edges) }
{
    for e in 0..graph.m() {
        let line = graph.edge(EdgeNo(e));
        hasher.update(line.from.0.to_be_bytes());
        hasher.update(line.to.0.to_be_bytes());
        hasher.update(line.weight.to_be_bytes());
    }
}
