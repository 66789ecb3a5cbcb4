//! Single records, read where they lie.
ghost use Rattle.std.specs.Prelude.{◌≡◌, ◌+◌, ◌≤◌, length, drop};
ghost use Rattle.graph_atoms.specs.atom_file.Views.{vertex_at, ghost_at, edge_at};

use crate::atom_file::fields::{u16_at, u32_at, u64_at};
use gl_base::{AtomNo, EdgeLine, EdgeNo, GhostLine, Vertex, VertexLine};

/// The vertex whose record begins at a place.
pub fn vertex_at(bytes: &[u8], place: usize) -> VertexLine
    requires { place + 13 ≤ length bytes.now }
    ensures { result ≡ vertex_at (drop place bytes.now) }
{
    VertexLine {
        vertex: Vertex(u32_at(bytes, place + 1)),
        id: u64_at(bytes, place + 5),
    }
}

/// The ghost whose record begins at a place.
pub fn ghost_at(bytes: &[u8], place: usize) -> GhostLine
    requires { place + 15 ≤ length bytes.now }
    ensures { result ≡ ghost_at (drop place bytes.now) }
{
    GhostLine {
        vertex: Vertex(u32_at(bytes, place + 1)),
        id: u64_at(bytes, place + 5),
        atom: AtomNo(u16_at(bytes, place + 13)),
    }
}

/// The edge whose record begins at a place.
pub fn edge_at(bytes: &[u8], place: usize) -> EdgeLine
    requires { place + 17 ≤ length bytes.now }
    ensures { result ≡ edge_at (drop place bytes.now) }
{
    EdgeLine {
        edge: EdgeNo(u32_at(bytes, place + 1)),
        from: Vertex(u32_at(bytes, place + 5)),
        to: Vertex(u32_at(bytes, place + 9)),
        weight: u32_at(bytes, place + 13),
    }
}
