//! A call starts from what the journal of a store has: its machines, and its course.

mod openings;
mod placing;
mod starting;
mod tickets;
mod traces;
mod unstored;

pub use starting::{Started, start_call};
pub(crate) use unstored::start_unstored;
