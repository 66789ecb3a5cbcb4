//! Gives the edges of a list their vertex numbers, and sorts them.
ghost use Rattle.std.specs.Prelude.{◌≡◌, ℕ, ◌+◌, ◌*◌, ◌^◌, ◌<◌, ◌≤◌, ◌||◌, nat_lt, length, IfOk};
ghost use Rattle.graph_core.specs.IdTable.{IsTableOf};
ghost use Rattle.graph_core.specs.Inner.NumberedEdges.{IsNumber, AreNumbered, StopsAt, SortsEdges, edge_double};

use crate::edges::Edge;
use crate::id_table::IdTable;
use crate::sorting::{DoubleAt, sorted};
use crate::{EdgeIn, GraphFault};
use gl_base::{MAX_VERTICES, NoMemory, OrNoMemory};
use std::alloc::Global;

/// The edges of a graph with these identifiers, by ascending ends.
pub fn kept_edges(
    alloc: Global,
    table: &IdTable,
    ids: &[u64],
    listed: Vec<EdgeIn>,
    directed: bool,
) -> Result<Vec<Edge>, GraphFault>
    requires table { IsTableOf ids.now table.now }
    ensures { SortsEdges ids.now directed listed.items result }
{
    let Numbered { edges, fault } = number_all(alloc, table, ids, &listed, directed)?;
    drop(listed);
    match sorted(alloc, edges) {
        Err(unsorted) => Err(double_edge(unsorted)),
        Ok(edges) => match fault {
            Some(fault) => Err(fault),
            None => Ok(edges),
        },
    }
}

/// Edges that cannot be sorted, as a fault of the graph.
fn double_edge(unsorted: OrNoMemory<DoubleAt>) -> GraphFault
    ensures { result ≡ edge_double unsorted }
{
    match unsorted {
        OrNoMemory::Fault(DoubleAt(place)) => GraphFault::DoubleEdge(place),
        OrNoMemory::NoMemory => GraphFault::NoMemory,
    }
}

/// The edges before the first one with a wrong end, and that one's fault.
#[derive(Drop)]
struct Numbered {
    edges: Vec<Edge>,
    fault: Option<GraphFault>,
}

fn number_all(
    alloc: Global,
    table: &IdTable,
    ids: &[u64],
    listed: &[EdgeIn],
    directed: bool,
) -> Result<Numbered, NoMemory>
    requires table { IsTableOf ids.now table.now }
    ensures edges { IfOk result (λ n. AreNumbered ids.now directed listed.now n.edges.items) }
    ensures stop { IfOk result (λ n. StopsAt ids.now listed.now (length n.edges.items) n.fault) }
{
    let mut edges = Vec::with_capacity(alloc, listed.len())?;
    for place in 0..listed.len() {
        match number(table, ids, listed[place], place, directed) {
            Ok(edge) => edges.push(edge)?,
            Err(fault) => {
                return Ok(Numbered {
                    edges,
                    fault: Some(fault),
                });
            }
        }
    }
    Ok(Numbered { edges, fault: None })
}

/// The edge at a place between the vertices of its identifiers.
fn number(
    table: &IdTable,
    ids: &[u64],
    listed: EdgeIn,
    place: usize,
    directed: bool,
) -> Result<Edge, GraphFault>
    requires table { IsTableOf ids.now table.now }
    ensures { IsNumber ids.now directed listed place result }
{
    let Some(from) = table.find(ids, listed.from) else {
        return Err(GraphFault::UnknownVertex(place));
    };
    let Some(to) = table.find(ids, listed.to) else {
        return Err(GraphFault::UnknownVertex(place));
    };
    if listed.from == listed.to {
        return Err(GraphFault::SelfLoop(place));
    }
    let weight = listed.weight;
    if is_forward(listed, directed) {
        Ok(Edge { from, to, weight })
    } else {
        Ok(Edge {
            from: to,
            to: from,
            weight,
        })
    }
}

/// Whether an edge is kept the way round it is listed.
fn is_forward(listed: EdgeIn, directed: bool) -> bool
    ensures { result ≡ (directed || nat_lt listed.from listed.to) }
{
    directed || listed.from < listed.to
}
