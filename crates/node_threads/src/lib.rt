//! The machines of a cluster on threads of their own, over one stretch of a run.
#![tactic(auto)]

mod leading;
mod running;
mod serving;
mod starting;

pub use running::run_nodes;
