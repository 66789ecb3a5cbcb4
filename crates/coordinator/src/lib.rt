//! The coordinator: waves that find the end, snapshots, and what it asks of a machine.
#![tactic(auto)]

pub mod coord_core;
pub mod machine_api;
pub mod quiet_waves;
pub mod snap_update;
