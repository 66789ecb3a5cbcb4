//! Graphs of small lists.
use gl_base::{MAX_EDGES, MAX_ID, MAX_VERTICES};
use graph_core::{EdgeIn, Graph, GraphFault};
use std::alloc::{AllocError, Global};

/// The graph of these identifiers and of edges of weight 1 between them, or why they make none.
pub fn graph_of(
    alloc: Global,
    ids: &[u64],
    pairs: &[(u64, u64)],
    directed: bool,
) -> Result<Graph, GraphFault> {
    let edges = edges_of(alloc, pairs)?;
    let ids = Vec::from_slice(alloc, ids)?;
    build(alloc, ids, edges, directed)
}

fn edges_of(alloc: Global, pairs: &[(u64, u64)]) -> Result<Vec<EdgeIn>, AllocError> {
    let mut edges = Vec::new(alloc);
    for (from, to) in pairs {
        edges.push(EdgeIn {
            from: *from,
            to: *to,
            weight: 1,
        })?;
    }
    Ok(edges)
}

/// The graph of these lists. Lists that are longer than a graph's, and identifiers that are too
/// great, count as want of memory.
fn build(
    alloc: Global,
    ids: Vec<u64>,
    edges: Vec<EdgeIn>,
    directed: bool,
) -> Result<Graph, GraphFault> {
    let are_short = ids.len() <= MAX_VERTICES && edges.len() <= MAX_EDGES;
    if !are_short || !ids.iter().all(|id| *id <= MAX_ID) {
        return Err(GraphFault::NoMemory);
    }
    Graph::build(alloc, ids, edges, directed)
}
