//! A worked example of locks. It is the contract of a function that does nothing.
ghost use Rattle.std.specs.Prelude.{◌≡◌, Some, List, [], ◌∷◌, length};
ghost use Rattle.gl_base.specs.declared.scopes.Mode.TheVariants.{Reader, Writer};
ghost use Rattle.cluster_laws.specs.cluster_core.Actions.{MayGrant};
ghost use Rattle.cluster_laws.specs.cluster_core.Runs.{IsStart, IsActionRun};
ghost use Rattle.cluster_laws.specs.cluster_core.Settings.{IsSetting};
ghost use Rattle.cluster_laws.specs.cluster_places.FourVertices.{at_last, first_world, fourth, fourth_asks, fourth_updates, on_four_machines, second, second_updates, while_fourth_waits, while_second_flies};

/// Vertices 1 to 4 with the edges 1 2, 2 4 and 3 4, one on each of four machines. Vertex 2 is
/// updated and takes label 1. Before its neighbour 4 has heard of that, the scope of 4 has all
/// locks but its own, and can't be granted that one: the scope of 2 holds it still. Once the word
/// has come it is granted, and vertex 4 takes label 1.
pub fn locks_wait_for_news()
    ensures setting { IsSetting on_four_machines }
    ensures start { IsStart on_four_machines first_world }
    ensures second_may { IsActionRun on_four_machines first_world
        second_updates while_second_flies }
    ensures fourth_may { IsActionRun on_four_machines while_second_flies
        fourth_asks while_fourth_waits }
    ensures labels_then { (((while_fourth_waits.part 1).datum 1).value ≡ 1)
        × (((while_fourth_waits.part 3).datum 1).value ≡ 2)
        × (((while_fourth_waits.part 3).datum 3).value ≡ 4) }
    ensures held_then { ((while_fourth_waits.part 3).holder 3 second ≡ Some Reader)
        × ((while_fourth_waits.part 3).queue 3 ≡ record { scope = fourth; mode = Writer } ∷ []) }
    ensures not_now { MayGrant on_four_machines 3 3 (while_fourth_waits.part 3) → ⊥ }
    ensures at_last_may { IsActionRun on_four_machines while_fourth_waits fourth_updates at_last }
    ensures labels_at_last { (((at_last.part 3).datum 1).value ≡ 1)
        × (((at_last.part 3).datum 3).value ≡ 1)
        × (length (at_last.part 3).log ≡ 1)
        × (at_last.next ≡ 2) }
{}
