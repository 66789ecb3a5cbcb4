//! How many records of each kind a file has.
ghost use Rattle.std.specs.Prelude.{◌≡◌, Some, None, IfOk, OnOk, IfErr};
ghost use Rattle.graph_atoms.specs.atom_file.Faults.{atom_fault};
ghost use Rattle.graph_atoms.specs.atom_file.Inner.Counts.{AreCounts};

use crate::atom_file::AtomFault;
use crate::atom_file::fields::u32_at;
use crate::atom_file::header::{HEADER, check_header};
use crate::atom_file::runs::{Place, RecordKind, check_end, run_of};

/// How many records of each kind there are.
#[derive(Clone, Copy)]
pub struct Counts {
    pub vertices: u32,
    pub ghosts: u32,
    pub edges: u32,
}

/// Reads a file from front to back, and counts its records.
pub fn counts_of(bytes: &[u8]) -> Result<Counts, AtomFault>
    ensures counts { IfOk result (λ counts.
        AreCounts bytes.now counts.vertices counts.ghosts counts.edges) }
    ensures none { OnOk result (atom_fault bytes.now ≡ None) }
    ensures fault { IfErr result (λ fault. atom_fault bytes.now ≡ Some fault) }
{
    check_header(bytes)?;
    let start = Place {
        at: HEADER,
        left: u32_at(bytes, 16),
        least: 0,
    };
    let vertices = run_of(bytes, RecordKind::Vertices, start)?;
    let ghosts = run_of(bytes, RecordKind::Ghosts, vertices.end)?;
    let edges = run_of(bytes, RecordKind::Edges, ghosts.end)?;
    check_end(bytes, edges.end)?;
    Ok(Counts {
        vertices: vertices.count,
        ghosts: ghosts.count,
        edges: edges.count,
    })
}
