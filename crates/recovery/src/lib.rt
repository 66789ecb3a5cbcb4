//! What a run goes on from: the last snapshot of a store, or the start.
#![tactic(auto)]

mod laws;
pub mod opened_store;
pub mod record_form;
pub mod records;
mod recovered;
pub mod restarts;

pub use laws::append_preserves_validity;
pub use recovered::{recover, start_base};
