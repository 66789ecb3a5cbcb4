//! A graph cut into atoms: the atom of each vertex, the lines of each atom, and the index.

mod assigning;
mod cutting;
mod index;
mod laws;
mod lines;
mod metas;

pub use assigning::atoms_by_growth;
pub use cutting::{Atoms, cut, index_under};
pub use laws::{atoms_of_graphs_fit, atoms_of_graphs_have_files};
pub use lines::{lines_of, vertices_of};
pub use metas::MetaEdge;
