//! A machine of either engine that takes snapshots as updates.
#![tactic(auto)]

pub mod chromatic;
pub mod locking;
pub mod marking;
pub mod saving;
pub mod snapshot_receive;
pub mod wave_counts;
