//! The tasks of a machine, its pending vertices, and which of them it admits next.

mod flags;
mod stages;
mod task_sets;

pub use task_sets::{Pick, TaskSet};
