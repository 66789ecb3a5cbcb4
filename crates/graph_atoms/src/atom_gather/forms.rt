//! The forms of the files of atoms.
ghost use Rattle.std.specs.Prelude.{◌≡◌, ℕ, ◌+◌, ◌<◌, ◌≤◌, Some, None, IfErr, OnOk};
ghost use Rattle.graph_atoms.specs.atom_file.Faults.{atom_fault};
ghost use Rattle.graph_atoms.specs.atom_gather.Files.{atom_file_at, form_fault, form_of, forms_fault};

use crate::atom_file::{AtomFault, AtomView};
use gl_base::{AtomsFault, AtomsKind, MAX_ATOMS};

/// A fault of form of this file.
pub fn fault_in(file: u16, fault: AtomFault) -> AtomsFault
    ensures { result ≡ form_fault file fault }
{
    let (kind, at) = match fault {
        AtomFault::Torn(at) => (AtomsKind::Torn, at),
        AtomFault::BadTag(at) => (AtomsKind::BadTag, at),
        AtomFault::OutOfOrder(at) => (AtomsKind::OutOfOrder, at),
        AtomFault::Trailing(at) => (AtomsKind::Trailing, at),
    };
    AtomsFault { file, kind, at }
}

/// The file of an atom. A missing one has no bytes.
pub fn file_of(files: &[Vec<u8>], atom: u16) -> &[u8]
    ensures { result.now ≡ atom_file_at files.now atom }
{
    match files.get(atom as usize) {
        Some(file) => file,
        None => &[],
    }
}
