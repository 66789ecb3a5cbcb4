//! The update event of a machine as one call.

mod laws;
mod turns;
mod waiting;

pub use laws::{no_work_is_out_while_rows_are_in, parts_have_each_row};
pub use turns::update;
pub use waiting::next_ready;
