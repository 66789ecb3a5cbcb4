//! The edges at a vertex.
ghost use Rattle.std.specs.Prelude.{◌≡◌};
ghost use Rattle.update_api.specs.Directions.{leads_out, leads_into};

/// How an edge leads, seen from the vertex in question.
#[derive(Clone, Copy, PartialEq, Eq)]
pub enum Direction {
    /// It leads out of the vertex alone.
    Out,
    /// It leads into the vertex alone.
    Into,
    /// It has no direction, and so leads both ways.
    Both,
}

impl Direction {
    /// Whether the edge leads out of the vertex.
    pub fn leads_out(self) -> bool
        ensures { result ≡ leads_out self }
    {
        self != Direction::Into
    }

    /// Whether the edge leads into the vertex.
    pub fn leads_into(self) -> bool
        ensures { result ≡ leads_into self }
    {
        self != Direction::Out
    }
}

/// An edge at a vertex: the places of the other end's number and of the edge's own, its weight, and
/// how it leads.
#[derive(Clone, Copy)]
pub struct Link {
    pub near: u32,
    pub edge: u32,
    pub weight: u32,
    pub direction: Direction,
}
