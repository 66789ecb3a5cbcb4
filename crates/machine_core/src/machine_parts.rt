//! The parts of one machine of a cluster, and what they stand for in the cluster's law.

mod cores;
mod spare;

pub use cores::{Core, Terms};
pub use spare::SpareParts;
