//! What is read before a verb does its work: the job's file, the two texts of its graph, and its
//! atoms.

mod atoms;
mod graphs;
mod inputs;
mod jobs;
mod sources;

pub use inputs::{Input, NoInput, read_input, read_run_input};
pub use jobs::JobVerb;
