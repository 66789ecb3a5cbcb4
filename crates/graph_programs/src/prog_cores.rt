//! The program of core numbers.

mod cores;

pub use cores::Cores;
