//! Programs that spread the least number: levels and component labels.

mod components;
mod levels;

pub use components::Components;
pub use levels::Levels;
