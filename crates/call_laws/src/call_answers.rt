//! What a run with failures says of the lists that it leaves: laws from the attempts of a call, and
//! from the events of a cluster, to them.

mod laws;

pub use laws::{calls_are_runs, traces_are_runs};
