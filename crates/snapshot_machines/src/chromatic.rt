//! A machine with its program that goes by colours and takes part in snapshots.

mod admitting;
mod at_once;
mod founds;
mod machines;
mod reading;
mod snapshots;
mod steps;
mod updates;

pub use machines::ColorSnapMachine;
