//! Runs of programs whose updates may write their neighbours too: on a cluster of machines, and on
//! one thread. What the machines leave, if anything, is updated one after another.
#![tactic(auto)]

mod agendas;
mod counts;
mod driving;
mod foreseeing;
mod gathering;
mod laws;
mod outlooks;
mod quiet;
mod runs;
mod so_far;
mod tasks;

pub use counts::counts_by_machine;
pub use laws::{full_runs_of_pairs_are_few, full_runs_of_pairs_match};
pub use runs::{FullEnd, run_full};
