//! Vertices that wait, first in, first out.

mod lines;
mod queues;

pub use lines::VertexLine;
pub use queues::{Spread, VertexQueue};
