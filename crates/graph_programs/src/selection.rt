//! The program of a job's algorithm, as one type for all of them: what runs a program is then
//! compiled once, and not for each algorithm.

mod programs;

pub use programs::JobProgram;
