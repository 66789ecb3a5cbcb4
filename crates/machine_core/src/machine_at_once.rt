//! The update of a vertex whose scope lies on one machine, made at once: no lock is taken and no
//! message is sent.

mod finding;
mod making;
mod updating;

pub use finding::{Found, find};
pub use making::{Stamp, make};
pub use updating::{refusal, update_at_once};
