//! Which vertices are left to be updated, and which comes next.
#![tactic(auto)]

pub mod color_tasks;
pub mod task_sched;
pub mod vertex_queue;
