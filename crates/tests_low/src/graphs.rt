//! Graphs of small lists.
use gl_base::{MAX_EDGES, MAX_ID, MAX_VERTICES};
use graph_core::{EdgeIn, Graph, GraphFault};
use std::alloc::{AllocError, Global};
use std::io;

/// An edge: its ends by their identifiers, and its weight.
pub type Line = (u64, u64, u32);

/// The graph of these identifiers and edges, or why they make none.
pub fn graph_of(
    alloc: Global,
    ids: &[u64],
    edges: &[Line],
    directed: bool,
) -> Result<Graph, GraphFault> {
    let edges = edges_of(alloc, edges)?;
    let ids = Vec::from_slice(alloc, ids)?;
    build(alloc, ids, edges, directed)
}

fn edges_of(alloc: Global, lines: &[Line]) -> Result<Vec<EdgeIn>, AllocError> {
    let mut edges = Vec::new(alloc);
    for (from, to, weight) in lines {
        edges.push(EdgeIn {
            from: *from,
            to: *to,
            weight: *weight,
        })?;
    }
    Ok(edges)
}

/// The graph of these lists. Lists that are longer than a graph's, and identifiers that are too
/// great, count as want of memory.
pub fn build(
    alloc: Global,
    ids: Vec<u64>,
    edges: Vec<EdgeIn>,
    directed: bool,
) -> Result<Graph, GraphFault> {
    let are_short = ids.len() <= MAX_VERTICES && edges.len() <= MAX_EDGES;
    if !are_short || !ids.iter().all(|id| *id <= MAX_ID) {
        return Err(GraphFault::NoMemory);
    }
    Graph::build(alloc, ids, edges, directed)
}

/// Prints why lists make no graph.
pub fn print_fault(rt: &impl Print, name: &str, fault: GraphFault) -> io::Result<()> {
    println!(rt; "{name}: {fault}")
}

/// A hub with identifier 500, and an edge from each other identifier below 1001 to it.
pub fn hub(alloc: Global) -> Result<Graph, GraphFault> {
    build(alloc, numbers_below(alloc, 1001)?, spokes(alloc)?, false)
}

fn spokes(alloc: Global) -> Result<Vec<EdgeIn>, AllocError> {
    let mut spokes = Vec::new(alloc);
    for from in 0..1001 {
        if from != 500 {
            spokes.push(edge_between(from, 500))?;
        }
    }
    Ok(spokes)
}

/// The identifiers below 50, and an edge between each two.
pub fn every_pair(alloc: Global) -> Result<Graph, GraphFault> {
    build(alloc, numbers_below(alloc, 50)?, pairs(alloc)?, false)
}

fn pairs(alloc: Global) -> Result<Vec<EdgeIn>, AllocError> {
    let mut pairs = Vec::new(alloc);
    for to in 0..50 {
        for from in 0..to {
            pairs.push(edge_between(from, to))?;
        }
    }
    Ok(pairs)
}

fn numbers_below(alloc: Global, count: u64) -> Result<Vec<u64>, AllocError> {
    (0..count).collect(alloc)
}

/// An edge of weight 1.
pub fn edge_between(from: u64, to: u64) -> EdgeIn {
    EdgeIn {
        from,
        to,
        weight: 1,
    }
}
