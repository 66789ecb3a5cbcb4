//! A snapshot that runs as an update saves a consistent cut: where a record may be made, the
//! sections that have come hold the numbers of a replay, that of the first updates of each vertex
//! in the order so far, and these are a valid order by themselves. Of the scopes it is used only
//! that they exclude one another.

mod examples;
mod laws;

pub use examples::a_snapshot_of_the_first_update;
pub use laws::{
    actions_keep_consistence, cuts_go_on, later_cuts_have_more, records_are_cuts,
    recoveries_are_starts, runs_go_on, starts_are_consistent,
};
