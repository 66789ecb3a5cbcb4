//! The machines of an attempt, of either engine, from the graph and what a store has.
#![tactic(auto)]

pub mod any_machine;
pub mod chromatic;
mod laws;
mod machines;
mod members;
mod placing;

pub use laws::attempts_can_begin;
pub use placing::{Places, SavingRun, machines_of_attempt};
