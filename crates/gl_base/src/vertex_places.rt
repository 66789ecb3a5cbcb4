//! The places of some vertices in their list, found by the vertex's number without a search.

mod places;

pub use places::Places;
