//! How a graph is cut into atoms.
use gl_base::AtomNo;

/// How a graph is cut into atoms: by its growth into so many, or as files of atoms tell, whose
/// number is that of their index.
#[derive(Drop)]
pub enum Cut {
    Grown(u16),
    Told { atoms: u16, of: Vec<AtomNo> },
}
