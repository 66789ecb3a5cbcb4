//! A run of a program, from what a store has, over failures and snapshots, to its end.
#![tactic(auto)]

pub mod answers;
pub mod append;
pub mod attempt_machines;
mod calls;
pub mod finish;
mod pauses;
pub mod placed;
pub mod placement_is_unique;
pub mod rollback;
mod running;
pub mod start;
mod steps;
pub mod stores;
mod threads;
mod unstored;

pub use running::run_stored;
pub use unstored::run_unstored;
