//! Atoms placed on machines, so that no machine carries much more than the others.

mod falling;
mod loads;
mod placing;

pub use placing::place;
