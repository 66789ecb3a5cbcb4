//! The snapshot that is due is put into the journal of a store, and acknowledged in the course of a
//! call only then.

mod adding;
mod faults;
mod numbers;
mod storing;

pub(crate) use adding::append_due;
pub(crate) use faults::AppendFault;
