//! The restarts of a store and of an attempt.
use gl_base::Entry;

/// The restarts of the store's last order, and those of the order that the newest attempt began
/// with, of which the store's are the first.
#[derive(Drop)]
pub struct Restarts {
    pub stored: Vec<Entry>,
    pub front: Vec<Entry>,
}
