//! The pipeline of scopes of a machine: which scopes were admitted and are in flight, which of them
//! are ready, and where each scope that has come for locks stands.

mod entered;
mod flights;
mod hints;
mod next;
mod pipes;

pub use entered::Entered;
pub use flights::Flight;
pub use next::Next;
pub use pipes::{Left, PipeFault, ScopePipe};
