//! The files that a verb writes of a graph: the two texts of a made graph, and the index and the
//! atoms of a cut.

mod cutting;
mod making;

pub use cutting::write_cut;
pub use making::make_files;
