//! What of a machine carries numbers: its part of the graph, the copies of ghosts, its tasks, and
//! its log.

mod finishing;
mod keeping;
mod laws;
mod learning;
mod telling;
mod waking;

pub use keeping::{Numbers, ScratchBuffers, Spent};
pub use laws::{
    lists_are_the_news, news_are_applied, played_parts_have_their_tasks, sides_are_here,
    updates_are_made, works_have_the_numbers,
};
pub use telling::blank_done;
