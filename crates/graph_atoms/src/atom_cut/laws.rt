//! Laws of the definitions, with no code.
ghost use Rattle.std.specs.Prelude.{◌≡◌, ℕ, ◌^◌, ◌<◌, ◌≤◌, List, length, All};
ghost use Rattle.graph_core.specs.DataGraph.{DataGraph, IsDataGraph, size};
ghost use Rattle.graph_atoms.specs.atom_file.Atoms.{IsAtom, AtomFits};
ghost use Rattle.graph_atoms.specs.atom_cut.Atoms.{graph_atom};

/// Each atom of a graph has a file, whatever atom each vertex is in.
pub fn atoms_of_graphs_have_files()
    ensures { (g : DataGraph) (of : List ℕ) (a : ℕ) → IsDataGraph g → IsAtom (graph_atom g of a) }
{}

/// The numbers of each atom of a graph have the range of their fields, where those of atoms have.
pub fn atoms_of_graphs_fit()
    ensures { (g : DataGraph) (of : List ℕ) (a : ℕ) → IsDataGraph g → All (λ b. b < 2 ^ 16) of →
        length of ≡ size g → a < 2 ^ 16 → AtomFits (graph_atom g of a) }
{}
