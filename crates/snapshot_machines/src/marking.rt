//! What a machine of a cluster does where it hears of snapshots.

mod hearing;
mod laws;
mod learning;
mod marking;
mod marks;
mod pending;
mod saving;
mod seeding;
mod sending;
mod waiting;

pub use hearing::{begin, committed};
pub use laws::{news_come_in_steps, scopes_go_apart_from_snapshots};
pub use learning::learn;
pub use marking::mark;
pub use pending::{pend_named, pend_one};
pub use seeding::seed;
pub use sending::{is_section_due, section};
pub use waiting::{may_mark, next_mark};
