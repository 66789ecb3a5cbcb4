//! The coordinator of a cluster: it puts steps and waves out, counts what machines answer, begins
//! snapshots and records them, and finds the end.

mod asking;
mod leading;
mod records;
mod saving;
mod steps;
mod stores;

pub use leading::{Coordinator, Due};
pub use steps::Engine;
pub use stores::Store;
