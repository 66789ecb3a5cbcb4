//! Why the file of an atom was refused.
use thiserror::Error;

/// The first fault of a file that is read from front to back, with its place.
#[derive(Clone, Copy, Debug, PartialEq, Eq, Error)]
pub enum AtomFault {
    /// A byte is missing. The place is that of the first missing byte: how many bytes there are.
    #[error("at byte {0}: a byte is missing")]
    Torn(u64),
    /// A magic, a version, a zero or a tag hasn't one of its values. The place is that of its first
    /// byte.
    #[error("at byte {0}: a field has none of its values")]
    BadTag(u64),
    /// The tag of a record is below that of the one before it, or it is the same and the number
    /// does not rise. The place is that of the record's first byte.
    #[error("at byte {0}: a record is out of order")]
    OutOfOrder(u64),
    /// There is a byte past the last record. The place is that of this byte.
    #[error("at byte {0}: a byte stands past the last record")]
    Trailing(u64),
}
