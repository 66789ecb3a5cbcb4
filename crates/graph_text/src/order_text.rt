//! The texts that tell how a run ended: the answer, the report and the order.

mod answers;
mod orders;
mod reports;
mod sizes;

pub use answers::answer;
pub use orders::order_bytes;
pub use reports::report;
