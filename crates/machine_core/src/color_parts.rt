//! Vertices of a machine that goes by colours come to stand in line.

mod enlisting;

pub use enlisting::{Which, enlist, enlist_all, enlist_at, enlist_near};
