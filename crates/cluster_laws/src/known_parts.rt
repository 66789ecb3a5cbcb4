//! What a machine makes of its part does not depend on numbers at which it doesn't look.

mod laws;

pub use laws::{effects_look_alike, guards_look_alike};
