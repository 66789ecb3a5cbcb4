//! The lists of a call, gathered from its machines at its end, and what they say of how it ended.

mod cores;
mod fired;
mod gathering;
mod laws;
mod logs;
mod numbers;
mod tasks;

pub(crate) use gathering::{CallLists, GatherFault, gather_call};
pub use laws::calls_end_so;
pub(crate) use logs::merged_logs;
pub use tasks::task_left;
