//! The logs of all machines, merged into one order by ticket.

mod counting;
mod fronts;
mod laws;
mod merging;

pub use counting::count_by_machine;
pub use laws::{logs_merge_to_their_order, merges_are_one};
pub use merging::merge;
