//! Laws about runs of pairs. Each is the contract of a function that does nothing.
ghost use Rattle.std.specs.Prelude.{◌≡◌, ℕ, ◌≤◌, List, Option, None, Some};
ghost use Rattle.gl_base.specs.declared.entries.Entry.{Entry};
ghost use Rattle.gl_base.specs.declared.numbers.Vertex.{Vertex};
ghost use Rattle.graph_core.specs.DataGraph.{DataGraph, size, IsDataGraph};
ghost use Rattle.full_cluster.specs.Written.{state_in};
ghost use Rattle.prog_match.specs.MaximalMatchings.{IsMaximalMatching};
ghost use Rattle.prog_match.specs.Pairs.{update_of_pairs};
ghost use Rattle.full_runs.specs.FullEnds.{RunsFullyTo};

/// If a run of pairs leaves no task, its numbers are a maximal matching.
pub fn full_runs_of_pairs_match()
    ensures { (g : DataGraph) (owner : ℕ → ℕ) (budget : ℕ) (order : List Entry)
        (values edges : List ℕ) → IsDataGraph g →
        RunsFullyTo g update_of_pairs owner budget order values edges None →
        IsMaximalMatching g (state_in values edges) }
{}

/// A run of pairs leaves no task, if its budget has as many updates as there are vertices.
pub fn full_runs_of_pairs_are_few()
    ensures { (g : DataGraph) (owner : ℕ → ℕ) (budget : ℕ) (order : List Entry)
        (values edges : List ℕ) (left : Vertex) → size g ≤ budget →
        RunsFullyTo g update_of_pairs owner budget order values edges (Some left) → ⊥ }
{}
