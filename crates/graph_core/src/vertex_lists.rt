//! Sorts the identifiers of a graph.
ghost use Rattle.std.specs.Prelude.{◌≡◌, List};
ghost use Rattle.graph_core.specs.Edges.{SortsIds};
ghost use Rattle.graph_core.specs.Inner.NumberedEdges.{vertex_double};

use crate::GraphFault;
use crate::sorting::{DoubleAt, sorted};
use gl_base::OrNoMemory;
use std::alloc::Global;

/// The identifiers in order, or the first one that stands before it too.
pub fn sorted_ids(alloc: Global, ids: Vec<u64>) -> Result<Vec<u64>, GraphFault>
    ensures { SortsIds ids.items result }
{
    match sorted(alloc, ids) {
        Ok(ids) => Ok(ids),
        Err(unsorted) => Err(double_vertex(unsorted)),
    }
}

/// Identifiers that cannot be sorted, as a fault of the graph.
fn double_vertex(unsorted: OrNoMemory<DoubleAt>) -> GraphFault
    ensures { result ≡ vertex_double unsorted }
{
    match unsorted {
        OrNoMemory::Fault(DoubleAt(place)) => GraphFault::DoubleVertex(place),
        OrNoMemory::NoMemory => GraphFault::NoMemory,
    }
}
