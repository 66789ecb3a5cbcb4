//! Laws of clusters whose updates write their whole scopes: scopes exclude one another, and the
//! numbers are those of one order.
#![tactic(auto)]

mod examples;
mod laws;

pub use examples::{a_scope_waits_for_a_whole_scope, a_shared_lock_has_no_order};
pub use laws::{
    arriving_scopes_stand_nowhere, full_clusters_start, full_clusters_stay_coherent,
    full_logs_merge_to_their_order, full_updates_are_fresh, given_clusters_have_their_replay,
    next_scopes_are_new, ready_scopes_are_apart, waiting_scopes_stand,
};
