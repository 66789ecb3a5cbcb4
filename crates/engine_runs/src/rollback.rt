//! All machines of a call go back after failures: the next attempt begins from what the store has.

mod failing;
mod going;
mod losing;
mod next_attempts;
mod reading;
mod rooms;
mod unstored;

pub use failing::fail_reached;
pub use going::go_back;
pub(crate) use unstored::go_back_to_start;
