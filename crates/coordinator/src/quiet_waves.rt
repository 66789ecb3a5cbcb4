//! Waves that count messages, and when they show the end of a run.

mod answering;
mod counting;

pub use counting::{Verdict, Waves};
