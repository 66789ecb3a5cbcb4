//! Machines that were made for an attempt begin a call, or go on with it from a base.

mod laws;
mod stores;

pub use laws::{machines_go_back, machines_start_calls};
pub(crate) use stores::store_where;
