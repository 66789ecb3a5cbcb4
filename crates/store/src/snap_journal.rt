//! The journal of snapshots: a store on a disk, which loses nothing that was acknowledged.

mod disk_reads;
mod faults;
mod journal;
mod last;
mod making;
mod opening;
mod records_read;

pub use crate::store_format::{Digest, Header, ProgramKey, StoreFault};
pub use faults::JournalFault;
pub use journal::Journal;
pub use making::init;
