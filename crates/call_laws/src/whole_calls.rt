//! What a cluster does from the opening of a call on: the call's attempts, their windows, their
//! snapshots and their end.
mod examples;
mod laws;

pub use examples::{a_call_that_goes_back, a_snapshot_for_the_end};
pub use laws::{losses_are_lacking, orders_are_one, recoveries_may_come, traces_are_calls};
