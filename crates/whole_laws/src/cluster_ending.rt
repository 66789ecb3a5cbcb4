//! How the coordinator's waves find the end of a run, with locks and with colours.
mod examples;
mod laws;

pub use examples::{a_run_to_its_end, waves_of_a_pair};
pub use laws::{
    counts_are_true, events_keep_machines_informed, events_keep_waves, locks_know_no_steps,
    no_task_comes_again, quiet_waves_end_all, quiet_waves_leave_no_task, snapshots_may_be_received,
    traces_end_where_waves_say, waves_may_be_received,
};
