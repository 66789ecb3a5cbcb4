//! The base that a store gives is one with which a call may open, as the law has it.

mod laws;

pub use laws::{calls_open_with_bases, good_bases_open_calls};
