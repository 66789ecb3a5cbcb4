//! The parts of a machine as it begins: its own vertices by their places, their colours, and what
//! it holds beside its numbers.

mod colours;
mod cores;
mod places;

pub use colours::colours_of;
pub use cores::{NewTerms, new_core};
pub use places::vertices_by_place;
