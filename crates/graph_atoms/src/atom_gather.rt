//! Atoms gathered from their files.

mod comparing;
mod cuts;
mod forms;
mod gathering;
mod index_form;
mod laws;
mod owners;

pub use comparing::check_same;
pub use cuts::Cut;
pub use forms::fault_in;
pub use gathering::{AtomsReading, check_atom, gathered};
pub use index_form::check_index;
pub use laws::cuts_are_gathered;
pub use owners::Owners;
