//! Records, copied.
ghost use Rattle.std.specs.Prelude.{◌≡◌, ◌*◌, length, IfOk};
ghost use Rattle.graph_atoms.specs.atom_file.Views.{vertex_at, ghost_at, edge_at, records_in};

use crate::atom_file::records::{edge_at, ghost_at, vertex_at};
use gl_base::{EdgeLine, GhostLine, NoMemory, VertexLine};
use std::alloc::Global;

/// The vertices of so many records.
pub fn vertex_lines(alloc: Global, bytes: &[u8], count: u32) -> Result<Vec<VertexLine>, NoMemory>
    requires { length bytes.now ≡ 13 * count }
    ensures { IfOk result (λ lines. lines.items ≡ records_in vertex_at 13 count bytes.now) }
{
    let mut lines = Vec::with_capacity(alloc, count as usize)?;
    for i in 0..count as usize {
        lines.push(vertex_at(bytes, 13 * i))?;
    }
    Ok(lines)
}

/// The ghosts of so many records.
pub fn ghost_lines(alloc: Global, bytes: &[u8], count: u32) -> Result<Vec<GhostLine>, NoMemory>
    requires { length bytes.now ≡ 15 * count }
    ensures { IfOk result (λ lines. lines.items ≡ records_in ghost_at 15 count bytes.now) }
{
    let mut lines = Vec::with_capacity(alloc, count as usize)?;
    for i in 0..count as usize {
        lines.push(ghost_at(bytes, 15 * i))?;
    }
    Ok(lines)
}

/// The edges of so many records.
pub fn edge_lines(alloc: Global, bytes: &[u8], count: u32) -> Result<Vec<EdgeLine>, NoMemory>
    requires { length bytes.now ≡ 17 * count }
    ensures { IfOk result (λ lines. lines.items ≡ records_in edge_at 17 count bytes.now) }
{
    let mut lines = Vec::with_capacity(alloc, count as usize)?;
    for i in 0..count as usize {
        lines.push(edge_at(bytes, 17 * i))?;
    }
    Ok(lines)
}
