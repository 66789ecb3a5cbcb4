//! What comes to a machine that takes snapshots, in a cluster of the law to which events have led,
//! it can receive.

mod laws;

pub use laws::{asks_come_new, news_can_be_learned, nothing_else_comes, readies_come_home};
