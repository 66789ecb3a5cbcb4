//! A graph that is cut and placed has one placement, and a store is good by whatever owners agree:
//! laws of the owners of vertices.

mod laws;

pub use laws::{graphs_are_placed, placements_are_one, stores_stay_good_by_other_owners};
