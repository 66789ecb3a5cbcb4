//! The course of a call on a cluster that takes snapshots: what happens follows the failures that
//! the job orders, and makes a call.

mod apart;
mod failing;
mod laws;
mod traces;

pub use crate::clusters::{
    Coordinator, Due, Engine, Event, Lead, Local, Passage, SavingMachine, Store,
};
pub use apart::OpenTrace;
pub use failing::is_count_reached;
pub use laws::traces_add_up;
pub use traces::Trace;
