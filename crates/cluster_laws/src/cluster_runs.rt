//! Where scopes take locks a cluster is coherent whatever happens: each scope in its place, copies
//! true, numbers those of one valid order. So what happens there is serial, and what it does from a
//! start to an end is an attempt of a call.

mod laws;

pub use laws::{
    actions_keep_coherence, coherent_clusters_receive, coherent_updates_are_fresh, runs_are_apart,
    runs_are_attempts, runs_are_serial, snapshots_are_consistent, starts_are_coherent,
};
