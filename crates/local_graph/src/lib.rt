//! The part of the graph that a machine owns: its vertices in an order of its own, the edges at
//! them with their numbers, and the works that are made of them.
#![tactic(auto)]

mod ends;
mod graphs;
mod grouping;
mod linking;
mod links;
mod machines;
mod making;
mod moving;
mod numbers;
mod order;
mod outlines;
mod playing;
mod rows;
mod scopes;
mod sides;
mod siding;
mod works;

pub use graphs::LocalGraph;
pub use outlines::Outline;
pub use playing::MachineLines;
pub use rows::Row;
pub use sides::Side;
pub use works::{Batch, Outcome, Work};
