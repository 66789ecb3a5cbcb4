//! Laws about orders of updates of pairs. Each is the contract of a function that does nothing.
ghost use Rattle.std.specs.Prelude.{◌≤◌, List};
ghost use Rattle.gl_base.specs.declared.entries.Entry.{Entry};
ghost use Rattle.graph_core.specs.DataGraph.{DataGraph, size, IsDataGraph};
ghost use Rattle.seq_run.specs.StepBound.{updates_since_restart};
ghost use Rattle.full_scope.specs.FullOrders.{full_replay, IsFullyFinished, IsFullyValid};
ghost use Rattle.prog_match.specs.MaximalMatchings.{IsMaximalMatching};
ghost use Rattle.prog_match.specs.Pairs.{update_of_pairs};

/// Once no task is left, the numbers are a maximal matching. It holds of each valid order, restarts
/// included, on however many machines its updates were made.
pub fn pairs_are_maximal()
    ensures { (g : DataGraph) → IsDataGraph g → (order : List Entry) →
        IsFullyValid g update_of_pairs order → IsFullyFinished g update_of_pairs order →
        IsMaximalMatching g (full_replay g update_of_pairs order) }
{}

/// A valid order has at most one update for each vertex after its last restart, so as many updates
/// as there are vertices are enough.
pub fn pairs_need_few_updates()
    ensures { (g : DataGraph) (order : List Entry) → IsFullyValid g update_of_pairs order →
        updates_since_restart order ≤ size g }
{}
