//! The update functions: labels, paths, colourings and core numbers, the one that a job names, and
//! programs whose updates pass a gate.
#![tactic(auto)]

pub mod gated;
pub mod prog_colours;
pub mod prog_cores;
pub mod prog_labels;
pub mod prog_paths;
pub mod selection;
