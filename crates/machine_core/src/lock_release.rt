//! The locks of a scope, released at once.

mod releasing;

pub use releasing::release_all;
