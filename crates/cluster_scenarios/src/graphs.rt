//! The graph of a scenario.
use crate::plans::Plan;
use crate::trouble::Trouble;
use gl_base::{MAX_EDGES, MAX_ID, MAX_VERTICES};
use graph_core::{EdgeIn, Graph};
use std::alloc::Global;

/// Returns the graph of the plan.
pub fn graph_of(alloc: Global, plan: &Plan) -> Result<Graph, Trouble> {
    let ids = Vec::from_slice(alloc, &plan.vertices)?;
    let edges = Vec::from_slice(alloc, &plan.edges)?;
    built(alloc, ids, edges, plan.is_directed)
}

/// Returns the graph, if its lists are short, its identifiers low, and each line is one of a graph.
fn built(
    alloc: Global,
    ids: Vec<u64>,
    edges: Vec<EdgeIn>,
    is_directed: bool,
) -> Result<Graph, Trouble> {
    if ids.len() > MAX_VERTICES || edges.len() > MAX_EDGES {
        return Err(Trouble::Because("there are too many vertices or edges"));
    }
    if !ids.iter().all(|id| *id <= MAX_ID) {
        return Err(Trouble::Because("an identifier is too great"));
    }
    match Graph::build(alloc, ids, edges, is_directed) {
        Ok(graph) => Ok(graph),
        Err(_) => Err(Trouble::Because("no graph is so")),
    }
}
