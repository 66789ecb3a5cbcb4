//! The file of an atom: written exactly, and read where it lies.

mod counts;
mod faults;
mod fields;
mod header;
mod laws;
mod lists;
mod records;
mod runs;
mod view;
mod writing;

pub use faults::AtomFault;
pub use fields::{u16_at, u32_at};
pub use header::{check_value, check_whole};
pub use laws::{files_tell_one_atom, written_files_have_no_fault};
pub use view::AtomView;
pub use writing::write_atom;
