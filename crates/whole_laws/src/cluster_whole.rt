//! A cluster as a whole, with its coordinator: whatever happens, failures and recoveries among it,
//! its scopes exclude one another, its logs are the parts of one valid order, and its snapshots are
//! cuts of that order.
mod laws;

pub use laws::{
    clusters_begin_whole, counts_are_balanced, cuts_go_on, due_steps_are_over, events_are_moves,
    events_keep_clusters_whole, events_keep_windows, events_log_for_snapshots,
    fronts_may_be_received, grants_never_happen, records_hold_cuts, traces_stay_whole,
    whole_clusters_are_serial, whole_clusters_exclude, whole_updates_are_fresh,
};
