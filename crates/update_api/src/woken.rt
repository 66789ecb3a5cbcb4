//! Whom an update wakes.

/// The vertices that are scheduled again after an update of a vertex.
#[derive(Clone, Copy, Debug, PartialEq, Eq)]
pub enum Woken {
    /// No vertex.
    Nobody,
    /// Each neighbour that an edge leads to.
    Ahead,
    /// Each neighbour.
    Around,
}
