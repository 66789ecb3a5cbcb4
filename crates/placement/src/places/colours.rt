//! The colours of own vertices by their places.
ghost use Rattle.std.specs.Prelude.{◌≡◌, ◌<◌, length, IfOk};
ghost use Rattle.std.specs.List.{All};
ghost use Rattle.placement.specs.places.Colours.{colours_by_place};

use gl_base::{NoMemory, Vertex};
use std::alloc::Global;

/// The colours of these vertices, where `colours` has that of each vertex of the graph.
pub fn colours_of(alloc: Global, vertices: &[Vertex], colours: &[u32]) -> Result<Vec<u32>, NoMemory>
    requires { All (λ v. v.0 < length colours.now) vertices.now }
    ensures { IfOk result (λ list. list.items ≡ colours_by_place colours.now vertices.now) }
{
    let mut list = Vec::with_capacity(alloc, vertices.len())?;
    for v in vertices {
        list.push_reserved(colours[v.0 as usize]);
    }
    Ok(list)
}
