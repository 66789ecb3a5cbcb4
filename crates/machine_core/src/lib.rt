//! One machine of a cluster that takes locks.
#![tactic(auto)]

pub mod color_parts;
pub mod lock_release;
pub mod machine_at_once;
pub mod machine_parts;
pub mod machine_rest;
pub mod machine_scopes;
pub mod machine_turns;
pub mod machine_updates;
pub mod step_scopes;
