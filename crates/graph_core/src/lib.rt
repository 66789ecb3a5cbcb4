//! The data graph, and what walks, levels, distances, components and colourings of it are.
#![tactic(auto)]

pub mod color_steps;
mod digesting;
mod edge_lists;
mod edges;
mod graph;
mod graph_lists;
mod growing;
mod half_rows;
mod halves;
mod id_table;
mod laws;
mod neighbours;
mod rows;
mod sorting;
mod vertex_lists;

pub use digesting::digest;
pub use graph::Graph;
pub use graph_lists::{EdgeIn, GraphFault};
pub use growing::growth;
pub use halves::Half;
pub use id_table::IdTable;
pub use laws::{
    degrees_count_neighbours, distances_are_unique, halves_are_edges, joined_is_equivalence,
    levels_are_unique, levels_of_small_graphs, neighbours_are_ends, numbers_bound_walks,
    walks_join, walks_stay,
};
pub use neighbours::{ascend, make_distinct};
pub use rows::{Keyed, Rows};
pub use vertex_lists::sorted_ids;
