//! A machine that takes part in snapshots, as a cluster knows it: with what it counts and what it
//! tells the coordinator.

mod eager;
mod hearing;
mod machines;
mod members;
mod reading;
mod receiving;
mod reports;
mod scopes;
mod snapshots;
mod updates;

pub use machines::LockingMachine;
pub use reports::Reports;
