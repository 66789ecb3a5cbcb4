//! The places of vertices in a list.
ghost use Rattle.std.specs.Prelude.{◌≡◌, ◌<◌, ◌≤◌, length, IfOk};
ghost use Rattle.std.specs.List.{All};
ghost use Rattle.gl_base.specs.vertex_places.Placing.{place_of_vertex, AreTheirPlaces};

use crate::{NoMemory, Vertex};
use std::alloc::Global;
use std::marker::Model;

/// The place of each of some vertices in their list. Contracts see it by the vertex's number.
#[derive(Drop)]
pub struct Places {
    numbers: Vec<u32>,
    many: usize,
}

impl Model for Places {
    ghost use Rattle.std.specs.Prelude.{ℕ, List, Option};
    ghost use Rattle.gl_base.specs.vertex_places.Placing.{places_below};

    ghost Value = { List (Option ℕ) };

    ghost view = { λ p. places_below p.many p.numbers.items };
}

impl Places {
    /// The places of these vertices, whose numbers are below `count`. Of a vertex that stands there
    /// twice it is the last one.
    pub fn new(alloc: Global, vertices: &[Vertex], count: u32) -> Result<Places, NoMemory>
        requires below { All (λ v. v.0 < count) vertices.now }
        requires few { length vertices.now ≤ count }
        ensures { IfOk result (λ places. AreTheirPlaces places vertices.now) }
    {
        let mut numbers = Vec::from_elem(alloc, u32::MAX, count as usize)?;
        for (place, vertex) in vertices.iter().enumerate() {
            numbers[vertex.0 as usize] = place as u32;
        }
        let many = vertices.len();
        Ok(Places { numbers, many })
    }

    /// The place of v, and `None` where it has none.
    #[inline]
    pub fn place(&self, v: Vertex) -> Option<usize>
        ensures { result ≡ place_of_vertex self.now v.0 }
    {
        match self.numbers.get(v.0 as usize) {
            Some(number) if (*number as usize) < self.many => Some(*number as usize),
            _ => None,
        }
    }
}
