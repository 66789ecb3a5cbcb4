//! Copies of the data of vertices that other machines own.

mod caches;

pub use caches::GhostCache;
