//! Messages between machines, and what waits to be sent.
#![tactic(auto)]

pub mod outboxes;
pub mod wire_msgs;
