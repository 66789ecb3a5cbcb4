//! Laws of the definitions, with no code: what `read` and `write_atom` have in common.
ghost use Rattle.std.specs.Prelude.{◌≡◌, None};
ghost use Rattle.graph_atoms.specs.atom_file.Atoms.{Atom, IsAtom, AtomFits, atom_bytes};
ghost use Rattle.graph_atoms.specs.atom_file.Faults.{atom_fault};

/// The file of an atom has no fault, so what was written is read.
pub fn written_files_have_no_fault()
    ensures { (a : Atom) → IsAtom a → AtomFits a → atom_fault (atom_bytes a) ≡ None }
{}

/// No two atoms have the same file, so what is read is what was written.
pub fn files_tell_one_atom()
    ensures { (a b : Atom) → AtomFits a → AtomFits b → atom_bytes a ≡ atom_bytes b → a ≡ b }
{}
