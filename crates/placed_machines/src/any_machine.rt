//! Machines that take part in snapshots, of either engine.
mod eager;
mod machines;
mod members;

pub use machines::AnyMachine;
