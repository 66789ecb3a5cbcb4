//! What the run of a program on a graph is, and how the graph is placed for it.

mod placing;
mod runs;

pub use placing::{first_of, placement_of};
pub use runs::RunPlan;
