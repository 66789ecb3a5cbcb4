//! A store beside the course of a call: what of the course it has, whatever happens.

mod laws;

pub use laws::{stores_go_with_traces, stores_stay_known};
