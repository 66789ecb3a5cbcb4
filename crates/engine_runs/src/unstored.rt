//! A run without a store, from the start to its end.

mod running;
mod steps;

pub use running::run_unstored;
