//! Reader-writer locks of the vertices of a machine, each with a queue of those that wait.

mod lists;
mod locks;
mod tables;
mod turns;

pub use tables::LockTable;
pub use turns::Turn;
