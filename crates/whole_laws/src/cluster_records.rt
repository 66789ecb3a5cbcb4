//! Which updates the snapshots of a cluster have, what a recovery goes back to, when machines ask
//! for a snapshot, and how many are stored.
mod examples;
mod laws;

pub use examples::{a_snapshot_that_is_asked_for, a_step_of_one_colour};
pub use laws::{
    calls_have_one_order, events_keep_accounts, failed_machines_stop, full_snapshots_hold_all,
    machines_ask_in_time, records_have_their_entries, records_make_cuts, recoveries_go_back,
    sections_have_their_entries, snapshots_are_few, snapshots_stay, traces_keep_accounts,
};
