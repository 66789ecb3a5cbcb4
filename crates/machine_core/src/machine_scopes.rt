//! Scopes at a machine: they are admitted, take their locks one after another, and go from machine
//! to machine and home.

mod admitting;
mod asking;
mod going;
mod granting;
mod laws;
mod picking;
mod readying;
mod starting;
mod taking;

pub use admitting::admit;
pub use asking::receive_ask;
pub use granting::{Moved, grant, grant_in_turn, next_grant};
pub use laws::{asks_are_new, words_come_home};
pub use readying::receive_ready;
