//! What an attempt that ends with failures goes back to: the store's last snapshot, and the
//! restarts that the store lacks.

mod bases;
mod failing;
mod laws;
mod missing;
mod records;
mod restarts;

pub use bases::base_behind;
pub use failing::count_failed;
pub use laws::stored_restarts_come_first;
pub use missing::{missing_restarts, restarts_of};
pub use records::record_behind;
pub use restarts::Restarts;
