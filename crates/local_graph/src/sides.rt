//! The other ends of the edges at a vertex.
use gl_base::{EdgeNo, MachineNo, Vertex};

/// An edge at a vertex: its number, its other end, the place of that in the machine's own order,
/// and the machine that owns it. Ghosts have the places behind the machine's own vertices.
#[derive(Clone, Copy)]
pub struct Side {
    pub edge: EdgeNo,
    pub other: Vertex,
    pub place: u32,
    pub owner: MachineNo,
}
