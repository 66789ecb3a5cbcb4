//! The edges at a vertex, as a full scope lends them.

use update_api::Direction;

/// An edge at a vertex: the identifier of its other end, its weight, and how it leads.
#[derive(Clone, Copy)]
pub struct FullLink {
    pub id: u64,
    pub weight: u32,
    pub direction: Direction,
}
