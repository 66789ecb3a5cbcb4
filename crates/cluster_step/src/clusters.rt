//! A cluster that takes snapshots, on one thread: its machines with the links between them, and its
//! coordinator. Whatever happens in it, each acknowledged snapshot is a consistent cut.

mod apart;
mod clusters;
mod events;
mod laws;
mod link;
mod links;
mod lists;
mod parts;
mod rows;

pub use clusters::SnapCluster;
pub use coordinator::coord_core::{Coordinator, Due, Engine, Store};
pub use coordinator::machine_api::SavingMachine;
pub use events::{Event, Lead, Local, Passage};
pub use laws::bases_stay_good;
pub use link::Link;
pub use links::Links;
pub use parts::Parts;
