//! Stores: the bytes of a header and of records, and the journal of a file.
#![tactic(auto)]

pub mod snap_journal;
pub mod store_format;
