//! An update of a vertex whose scope lies on one machine, made at once, is a run of actions of the
//! cluster.

mod laws;

pub use laws::{
    at_once_is_a_run, grants_are_a_run, moves_are_runs, moves_go_on, starts_may_update_at_once,
    steps_may_update_at_once,
};
