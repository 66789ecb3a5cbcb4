//! The program of distances, which also marks the edges of cheapest walks.

mod paths;

pub use paths::Paths;
