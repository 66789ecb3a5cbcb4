//! The lines of an atom, and why the files of a cut were refused.
use crate::{AtomNo, EdgeNo, Vertex};
use std::fmt;
use thiserror::Error;

/// A vertex of an atom, with its identifier.
#[derive(Clone, Copy, Debug, PartialEq, Eq)]
pub struct VertexLine {
    pub vertex: Vertex,
    pub id: u64,
}

/// A vertex of another atom that an edge of this atom leads to, with its identifier and the atom
/// that holds it.
#[derive(Clone, Copy, Debug, PartialEq, Eq)]
pub struct GhostLine {
    pub vertex: Vertex,
    pub id: u64,
    pub atom: AtomNo,
}

/// An edge of an atom. Of an edge without a direction `from` is the lower vertex.
#[derive(Clone, Copy, Debug, PartialEq, Eq)]
pub struct EdgeLine {
    pub edge: EdgeNo,
    pub from: Vertex,
    pub to: Vertex,
    pub weight: u32,
}

/// What an atom holds: its vertices, the other ends of its edges, and each edge with an end among
/// its vertices. Each list ascends by the vertex or the edge.
#[derive(Drop)]
pub struct Lines {
    pub vertices: Vec<VertexLine>,
    pub ghosts: Vec<GhostLine>,
    pub edges: Vec<EdgeLine>,
}

/// What is wrong with the files of a cut.
#[derive(Clone, Copy, Debug)]
pub enum AtomsKind {
    /// A byte is missing.
    Torn,
    /// A magic, a version, a zero, a tag or a number hasn't one of its values.
    BadTag,
    /// A record does not stand behind the one before it.
    OutOfOrder,
    /// There is a byte past the last record.
    Trailing,
    /// A vertex is not in exactly one atom.
    Owner,
    /// The bytes are not those of the graph's atoms.
    Differs,
    /// There are more bytes than a file may have.
    TooLong,
}

impl fmt::Display for AtomsKind {
    fn fmt<W: fmt::Write>(&self, f: &mut fmt::Formatter<W>) -> fmt::Result {
        f.write_str(match self {
            AtomsKind::Torn => "a byte is missing",
            AtomsKind::BadTag => "a tag or a number has none of its values",
            AtomsKind::OutOfOrder => "a record is out of order",
            AtomsKind::Trailing => "a byte stands past the last record",
            AtomsKind::Owner => "a vertex is not in exactly one atom",
            AtomsKind::Differs => "the bytes are not those of the graph",
            AtomsKind::TooLong => "the file is too long",
        })
    }
}

/// The first fault of the files of a cut. File 0 is the index, and file `a + 1` is that of atom
/// `a`. `at` is the place of a byte of that file, or for `Owner` a vertex.
#[derive(Clone, Copy, Debug, Error)]
#[error("file {file} of the cut, at {at}: {kind}")]
pub struct AtomsFault {
    pub file: u16,
    pub kind: AtomsKind,
    pub at: u64,
}
