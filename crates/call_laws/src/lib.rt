//! The laws of a call: its attempts, what is lost, what is answered, and what bounds it.
#![tactic(auto)]

pub mod attempts;
pub mod call_answers;
pub mod call_budgets;
pub mod cluster_attempts;
pub mod each_saved_once;
pub mod lost_updates;
pub mod whole_calls;
