//! Whatever happens in a cluster, the copies that machines keep are true, and the numbers and tasks
//! are those of one order of updates, replayed on the undivided graph. Of the scopes it is used
//! only that they exclude one another, so it holds however scopes are kept apart.

mod laws;

pub use laws::{actions_keep_numbers, runs_keep_numbers, starts_have_numbers, updates_are_fresh};
