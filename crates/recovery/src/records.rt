//! How a store keeps up with the snapshots of a call: laws from the events of a cluster to the
//! records of a store.

mod laws;

pub use laws::{records_go_with_stores, recoveries_come_from_stores, stores_keep_up};
