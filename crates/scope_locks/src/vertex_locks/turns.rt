//! Whose turn it is at a lock.
use gl_base::Claim;

/// What `LockTable::grant` answers.
#[derive(Clone, Copy, PartialEq, Eq)]
pub enum Turn {
    /// The first that waited holds the lock.
    Granted(Claim),
    /// Nobody waits, or the first that waits doesn't go together with each holder.
    Waiting,
}
