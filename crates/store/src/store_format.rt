//! The bytes of a store: read, checked and written.

mod body_check;
mod encoding;
mod entries_check;
mod entries_read;
mod faults;
mod fields;
mod header;
mod header_check;
mod laws;
mod made;
mod numbers_read;
mod sections_check;
mod taking;

pub use body_check::{body_size, fault_of_body};
pub use encoding::stored_bytes;
pub use entries_read::{in_order, push_entries_of};
pub use faults::StoreFault;
pub use fields::u64_at;
pub use graph_atoms::atom_file::u32_at;
pub use header::{Digest, Header, ProgramKey};
pub use header_check::{HEADER, check_header};
pub use laws::records_are_read_back;
pub use made::new_store;
pub use numbers_read::{Numbers, numbers_of};
pub use taking::is_record;
