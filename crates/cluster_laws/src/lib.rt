//! The cluster as a model: its parts and events, and the laws of what holds in it whatever happens.
#![tactic(auto)]

pub mod cluster_core;
pub mod cluster_cuts;
pub mod cluster_model;
pub mod cluster_moves;
pub mod cluster_numbers;
pub mod cluster_places;
pub mod cluster_runs;
pub mod interior_scopes;
pub mod known_parts;
pub mod merged_logs;
