//! A machine's part of the graph in the cluster's terms, and the numbers that it holds.
#![tactic(auto)]

pub mod local_parts;
pub mod machine_numbers;
