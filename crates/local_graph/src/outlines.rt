//! What a machine is told of the whole graph.

/// How many machines, vertices and edges there are in all, and whether edges have a direction.
#[derive(Clone, Copy)]
pub struct Outline {
    pub machines: u16,
    pub vertices: u32,
    pub edges: u32,
    pub directed: bool,
}
