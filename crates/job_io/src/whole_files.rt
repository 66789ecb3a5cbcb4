//! Files by name, read and written whole, and the names of the files of a cut.

mod names;
mod reading;
mod writing;

pub use names::{atom_name, index_name};
pub use reading::{NotRead, front_of};
pub use writing::{not_created, write_file};
