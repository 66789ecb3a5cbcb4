//! The greedy colouring of a graph, and the greatest of its colours.

mod greedy;
mod laws;

pub use greedy::{greatest_colour, greedy_colouring};
pub use laws::{greedy_colours_are_proper, greedy_colours_are_unique};
