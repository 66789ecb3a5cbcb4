//! Laws of the definitions, with no code.
ghost use Rattle.std.specs.Prelude.{◌≡◌, ℕ, List, None};
ghost use Rattle.graph_core.specs.DataGraph.{DataGraph, IsDataGraph};
ghost use Rattle.graph_atoms.specs.atom_gather.IndexForm.{atoms_in};
ghost use Rattle.graph_atoms.specs.atom_gather.Files.{AreFiles};
ghost use Rattle.graph_atoms.specs.atom_gather.Gathered.{IsAssignment, told_owners, gather_fault};

/// What a cut of a graph makes is taken back: an index and files that are those of a graph under an
/// assignment have no fault, and tell the number of atoms and the assignment.
pub fn cuts_are_gathered()
    ensures none { (g : DataGraph) (atoms : ℕ) (of index : List ℕ) (file : ℕ → List ℕ) →
        IsDataGraph g → IsAssignment g atoms of → AreFiles g atoms of index file →
        gather_fault g index file ≡ None }
    ensures atoms { (g : DataGraph) (atoms : ℕ) (of index : List ℕ) (file : ℕ → List ℕ) →
        IsDataGraph g → IsAssignment g atoms of → AreFiles g atoms of index file →
        atoms_in index ≡ atoms }
    ensures of { (g : DataGraph) (atoms : ℕ) (of index : List ℕ) (file : ℕ → List ℕ) →
        IsDataGraph g → IsAssignment g atoms of → AreFiles g atoms of index file →
        told_owners g index file ≡ of }
{}
