//! Which updates a recovery takes away.

mod lost;

pub use lost::lost_updates;
