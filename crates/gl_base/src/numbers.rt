//! Numbers of things. Each counts from 0.

/// A vertex: its place among the vertices by ascending identifier.
#[derive(Clone, Copy, Debug, PartialEq, Eq)]
pub struct Vertex(pub u32);

/// An edge: its place among the edges by ascending ends.
#[derive(Clone, Copy, Debug, PartialEq, Eq)]
pub struct EdgeNo(pub u32);

/// A machine of the cluster.
#[derive(Clone, Copy, Debug, PartialEq, Eq)]
pub struct MachineNo(pub u16);

/// An atom: a part of the graph that is placed on one machine as a whole.
#[derive(Clone, Copy, Debug, PartialEq, Eq)]
pub struct AtomNo(pub u16);
