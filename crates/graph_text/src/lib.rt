//! Graph texts, read from any source up to their first fault, and the graphs that they describe.
#![tactic(auto)]

mod edges;
pub mod generate;
pub mod lines;
mod lists;
pub mod order_text;
pub mod sync_folds;
mod vertices;

pub use edges::read_edges;
pub use lists::{Reading, VertexList};
pub use vertices::read_vertices;
