//! The restarts that a store lacks.
use crate::scenes::Kept;
use crate::trouble::Trouble;
use gl_base::Entry;
use recovery::restarts::missing_restarts;
use std::alloc::Global;

/// Returns the restarts that the store lacks: those that it lacked as the attempt began, and those
/// of so many failures with this ticket.
pub fn missing_of(
    alloc: Global,
    kept: &Kept,
    failures: usize,
    ticket: u64,
) -> Result<Vec<Entry>, Trouble> {
    let mut front = Vec::from_slice(alloc, &kept.order)?;
    front.extend_from_slice(&kept.lacking)?;
    Ok(missing_restarts(alloc, &kept.order, &front, failures, ticket)?)
}
