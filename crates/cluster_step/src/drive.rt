//! Drives an attempt of a call on a cluster that takes snapshots: rounds in which each machine has
//! its turn, until something is to be done that events of the cluster alone don't do.

mod asking;
mod driving;
mod happenings;
mod pauses;
mod turns;
mod unsaved;

pub use driving::drive;
pub use pauses::Pause;
pub use unsaved::{UnsavedPause, drive_unsaved};
