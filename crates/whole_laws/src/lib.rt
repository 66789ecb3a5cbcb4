//! The laws of a whole cluster: its coordinator, what stays of its orders, its end, attempts and
//! calls.
#![tactic(auto)]

pub mod cluster_ending;
pub mod cluster_records;
pub mod cluster_whole;
