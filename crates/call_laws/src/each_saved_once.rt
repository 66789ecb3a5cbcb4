//! What a snapshot that is due brings: of the graph alone, each edge in one section, and tickets
//! within the budget.

mod examples;
mod laws;

pub use examples::an_edge_in_one_section;
pub use laws::{
    due_snapshots_come_next, edges_are_saved_once, sections_keep_to_the_graph,
    tickets_keep_to_the_budget,
};
