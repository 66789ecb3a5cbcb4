//! What machines and the coordinator tell one another.

mod messages;

pub use messages::{Done, Message, Returned, Section};
