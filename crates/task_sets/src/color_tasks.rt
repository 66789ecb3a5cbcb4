//! What a machine that goes by colours keeps of its tasks: vertices in line by colour.

mod lines;

pub use lines::ColorLines;
