//! What happens in a cluster in the course of a call are attempts of the call, one after another,
//! with locks and with colours.
mod laws;

pub use laws::{records_are_held, traces_are_attempts};
