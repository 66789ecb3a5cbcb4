//! Attempts of a call, one after another: the order that they leave, the updates that failures took
//! away, and the snapshots.
mod examples;
mod laws;

pub use examples::a_call_with_a_failure;
pub use laws::{
    attempts_begin_at_snapshots, attempts_follow_one_another, attempts_go_on, beginnings_go_on,
    failures_are_followed, full_snapshots_are_orders, losses_are_few, orders_are_in_turn,
    recoveries_begin_again, restarts_are_counted, stores_stay_good, updates_are_accounted,
    windows_are_kept,
};
