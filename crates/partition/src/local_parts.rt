//! Laws alone: what a machine holds that played its lines is its part of the graph, for every graph
//! and every owners.

mod laws;

pub use laws::{
    atoms_by_owner_are_lines, lines_can_be_played, parts_of_graphs_are_local,
    played_parts_are_local, rows_share_their_edges,
};
