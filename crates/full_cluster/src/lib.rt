//! Machines whose updates write their whole scopes: their locks, the numbers that they keep, an
//! update on these and what it gives other machines, and the cluster of all of them with the links
//! between them.
#![tactic(auto)]

mod admitting;
mod arriving;
mod beginning;
mod clusters;
mod divisions;
mod events;
mod gifts;
mod giving;
mod granting;
mod kept;
mod laws;
mod lock_rows;
mod locks;
mod machines;
mod messages;
mod queues;
mod reading;
mod rows;
mod scope_maps;
mod sending;
mod updates;
mod updating;
mod ways;

pub use admitting::FullTerms;
pub use beginning::start_values;
pub use clusters::FullCluster;
pub use divisions::Division;
pub use events::FullEvent;
pub use giving::FullGift;
pub use kept::KeptNumbers;
pub use laws::{
    coherent_machines_may_admit, coherent_machines_may_deliver, coherent_machines_may_grant,
    coherent_machines_may_receive, coherent_machines_may_update, whole_locks_are_a_machines,
};
pub use lock_rows::WholeLocks;
pub use locks::WholeLock;
pub use machines::{FullMachine, ScopeStand};
pub use messages::FullMessage;
pub use queues::{FullQueue, FullQueues};
pub use scope_maps::ScopeMap;
pub use sending::send;
pub use updates::{MadeUpdate, update_at};
pub use updating::FullTickets;
