//! The own vertex at each place.
ghost use Rattle.std.specs.Prelude.{◌≡◌, length, IfOk};
ghost use Rattle.placement.specs.places.Places.{HaveFirstPlaces, StandByPlace};

use gl_base::{NoMemory, Vertex};
use local_graph::LocalGraph;
use std::alloc::Global;

/// The own vertices, each at its place.
pub fn vertices_by_place(alloc: Global, local: &LocalGraph) -> Result<Vec<Vertex>, NoMemory>
    requires { HaveFirstPlaces local.now }
    ensures { IfOk result (λ vertices.
        StandByPlace local.now (length local.now.owned) vertices.items) }
{
    let mut vertices = Vec::from_slice(alloc, local.owned())?;
    for v in local.owned() {
        if let Some(place) = local.place(*v) {
            vertices[place] = *v;
        }
    }
    Ok(vertices)
}
