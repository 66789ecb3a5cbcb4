//! Updates that lend the whole scope of a vertex, its neighbours' numbers too, to be written.
#![tactic(auto)]

mod laws;
mod links;
mod programs;
mod rows;
mod scopes;

pub use laws::{full_orders_go_on, full_rows_have_their_scope, full_updates_are_local};
pub use links::FullLink;
pub use programs::FullProgram;
pub use rows::update_lent;
pub use scopes::FullScope;
