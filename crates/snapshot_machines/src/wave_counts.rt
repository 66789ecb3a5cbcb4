//! A machine's part of waves: what it counts, whether it is idle, and its answer.

mod answers;
mod idling;
mod laws;

pub use answers::{WaveAnswer, WaveCounts};
pub use idling::is_at_rest;
pub use laws::{answers_are_prompt, counts_follow_events, machines_at_rest_are_idle};
