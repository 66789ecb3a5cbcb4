//! What waits to be sent: one queue for each peer, first in, first out.

mod boxes;
mod outboxes;

pub use outboxes::Outboxes;
