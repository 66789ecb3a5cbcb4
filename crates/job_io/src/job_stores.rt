//! The store of a job: what it is for, and how it is made.

mod headers;
mod making;

pub use headers::header_of;
pub use making::{StoreError, make_store};
