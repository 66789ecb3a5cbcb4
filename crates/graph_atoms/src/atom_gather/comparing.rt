//! Files compared with those of a graph.
ghost use Rattle.std.specs.Prelude.{◌≡◌, Some, None, IfErr, OnOk};
ghost use Rattle.graph_atoms.specs.atom_gather.Files.{differs_fault, differs_of};

use gl_base::{AtomsFault, AtomsKind};

/// Compares the bytes of a file with those that it is to have. Where one is the front of the other,
/// they differ where the shorter one ends.
pub fn check_same(file: u16, bytes: &[u8], wanted: &[u8]) -> Result<(), AtomsFault>
    ensures none { OnOk result (differs_fault file bytes.now wanted.now ≡ None) }
    ensures fault { IfErr result (λ fault. differs_fault file bytes.now wanted.now ≡ Some fault) }
{
    let shorter = bytes.len().min(wanted.len());
    for at in 0..shorter {
        if bytes[at] != wanted[at] {
            return Err(differs(file, at));
        }
    }
    if bytes.len() != wanted.len() {
        return Err(differs(file, shorter));
    }
    Ok(())
}

/// The fault of a file that differs at a place.
fn differs(file: u16, at: usize) -> AtomsFault
    ensures { differs_of file (Some at) ≡ Some result }
{
    AtomsFault {
        file,
        kind: AtomsKind::Differs,
        at: at as u64,
    }
}
