//! What a vertex sees of its edges.
ghost use Rattle.std.specs.Prelude.{◌≡◌, ◌<◌, ◌≤◌, ◌^◌, ◌*◌, ℕ, length, slice_get, Some};

use crate::edges::Edge;
use crate::rows::Keyed;
use gl_base::{EdgeNo, Vertex};

/// An edge at a vertex: its number, its other end, its weight, and whether it leads out of the
/// vertex and into it. An edge without direction does both.
#[derive(Clone, Copy)]
pub struct Half {
    pub edge: EdgeNo,
    pub other: Vertex,
    pub weight: u32,
    pub out: bool,
    pub into: bool,
}

/// Both halves of each edge, the first at `from` and the second at `to`.
#[derive(Drop)]
pub struct HalvesOf<'a> {
    pub edges: &'a [Edge],
    pub directed: bool,
    ghost few: { length edges.now < 2 ^ 31 },
}

impl Keyed for HalvesOf<'_> {
    type Item = Half;

    ghost use Rattle.graph_core.specs.Inner.HalfPairs.{half_pairs};

    ghost list = { λ h. half_pairs h.directed 0 h.edges.now };

    #[inline]
    fn len(&self) -> usize {
        2 * self.edges.len()
    }

    #[inline]
    fn at(&self, place: usize) -> (u32, Half) {
        let edge = self.edges[place / 2];
        let number = EdgeNo((place / 2) as u32);
        if place % 2 == 0 {
            let half = Half {
                edge: number,
                other: edge.to,
                weight: edge.weight,
                out: true,
                into: !self.directed,
            };
            (edge.from.0, half)
        } else {
            let half = Half {
                edge: number,
                other: edge.from,
                weight: edge.weight,
                out: !self.directed,
                into: true,
            };
            (edge.to.0, half)
        }
    }
}
