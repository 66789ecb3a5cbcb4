//! Whether a machine is idle, and how many messages wait in its outboxes.

mod counting;
mod idling;
mod scopes;
mod tasks;

pub use counting::waiting;
pub use idling::is_idle;
