//! A machine that goes by colours and takes part in snapshots, as a cluster knows it: with what it
//! counts and what it tells the coordinator.
mod at_once;
mod eager;
mod hearing;
mod machines;
mod members;
mod prompting;
mod reading;
mod receiving;
mod scopes;
mod snapshots;
mod updates;

pub use machines::ChromaticMachine;
