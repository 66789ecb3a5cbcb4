//! A machine with its program, which takes part in snapshots.

mod finding;
mod founds;
mod machines;
mod reading;
mod scopes;
mod snapshots;
mod updates;

pub use machines::SnapMachine;
