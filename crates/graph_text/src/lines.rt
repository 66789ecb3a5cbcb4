//! The lines of graph texts, read from any source in pieces of any size, and what each of them
//! says.

mod fields;
mod items;
mod lines;
mod plain;
mod said;

pub use items::LineItem;
pub use lines::{FoundItems, read_lines};
pub use said::{Ending, Row, Said, Unread};
