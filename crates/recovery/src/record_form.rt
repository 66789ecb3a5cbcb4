//! The record of a snapshot that is due is in the form of a store: laws from the events of a
//! cluster to the bytes of a record.

mod laws;

pub use laws::{due_records_are_in_form, stored_tickets_are_low};
