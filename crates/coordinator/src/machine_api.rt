//! What a cluster that takes snapshots knows of its machines: their calls, and what each promises
//! in the words of the cluster's law.

mod eager;
mod machines;

pub use eager::EagerMachine;
pub use machines::SavingMachine;
