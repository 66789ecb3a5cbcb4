//! Where each vertex of a run stands, and the plan of a run.
#![tactic(auto)]

pub mod graphs;
pub mod places;
pub mod plans;
