//! A machine's part of snapshots: what it saved, and which of its updates a snapshot has.

mod laws;
mod parts;

pub use laws::{
    beginnings_are_known, machines_begin_with_nothing, marks_are_saved, numbers_are_saved_once,
    other_events_leave_snapshots, sections_are_told, updates_are_logged,
    updates_outside_are_counted, windows_are_watched,
};
pub use parts::SnapPart;
