//! The cluster: its machines, its links and its coordinator, event by event, and the rounds of a
//! run.
#![tactic(auto)]

pub mod clusters;
pub mod drive;
pub mod trace;
