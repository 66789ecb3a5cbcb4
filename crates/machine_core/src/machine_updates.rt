//! Updates on one machine: ready scopes are taken out as works, updates are committed and told to
//! the other machines, and word of updates elsewhere is received.

mod committing;
mod laws;
mod receiving;
mod reserving;
mod spares;
mod telling;
mod works;

pub use committing::commit;
pub use laws::{dones_can_be_learned, works_of_strangers_are_apart};
pub use receiving::receive_done;
pub use reserving::{Prepared, prepare, reserve_commit, reserve_log};
pub use spares::Spares;
pub use telling::tell_all;
pub use works::{put_back, take_work};
