//! Worked examples of full scopes. Each is the contract of a function that does nothing.
ghost use Rattle.std.specs.Prelude.{◌≡◌, ℕ, true, false, List, [], ◌∷◌, length};
ghost use Rattle.gl_base.specs.declared.entries.Entry.{Entry};
ghost use Rattle.cluster_laws.specs.cluster_core.Settings.{IsSetting};
ghost use Rattle.prog_match.specs.Pairs.{update_of_pairs};
ghost use Rattle.full_laws.specs.FourInLine.{all_unmatched, both_set_out, both_update, both_updated, each_on_its_own, first_updates, of_first, of_third, once_given, third_updates, two_updated, while_both_wait, with_shared_lock};
ghost use Rattle.full_laws.specs.FullActions.{MayGrantFull};
ghost use Rattle.full_laws.specs.FullPlaces.{HaveOneHolder};
ghost use Rattle.full_laws.specs.FullReplays.{IsFullReplay};
ghost use Rattle.full_laws.specs.FullRuns.{IsFullStart, IsFullRun};
ghost use Rattle.full_laws.specs.Items.{AVertex, AnEdge};

use gl_base::INF;

/// Vertices 1 to 4 with the edges 1 2, 2 3 and 3 4, one on each of four machines. The scope of
/// vertex 3 holds the locks of 2 and 3 and waits for that of 4. The scope of vertex 1 waits for the
/// lock of 2, and can't be granted it. Vertex 3 is updated and matched with 2, which its machine
/// learns with what it is given. Then vertex 1 is updated, and finds nobody.
pub fn a_scope_waits_for_a_whole_scope()
    ensures setting { IsSetting each_on_its_own }
    ensures start { IsFullStart each_on_its_own update_of_pairs all_unmatched }
    ensures both_may { IsFullRun each_on_its_own update_of_pairs all_unmatched
        both_set_out while_both_wait }
    ensures held { ((while_both_wait.part 1).holds 1 of_third ≡ true)
        × ((while_both_wait.part 2).holds 2 of_third ≡ true)
        × ((while_both_wait.part 3).queue 3 ≡ of_third ∷ [])
        × ((while_both_wait.part 1).queue 1 ≡ of_first ∷ []) }
    ensures not_now { MayGrantFull each_on_its_own 1 1 (while_both_wait.part 1) → ⊥ }
    ensures third_may { IsFullRun each_on_its_own update_of_pairs while_both_wait
        third_updates once_given }
    ensures matched { ((once_given.part 1).number (AVertex 1) ≡ 3)
        × ((once_given.part 2).number (AVertex 2) ≡ 2)
        × ((once_given.part 1).number (AnEdge 1) ≡ 1)
        × ((once_given.part 2).number (AnEdge 1) ≡ 1) }
    ensures first_may { IsFullRun each_on_its_own update_of_pairs once_given
        first_updates two_updated }
    ensures numbers { ((two_updated.part 0).number (AVertex 0) ≡ INF)
        × ((two_updated.part 1).number (AVertex 1) ≡ 3)
        × ((two_updated.part 2).number (AVertex 2) ≡ 2)
        × ((two_updated.part 3).number (AVertex 3) ≡ INF) }
    ensures edges { ((two_updated.part 0).number (AnEdge 0) ≡ 0)
        × ((two_updated.part 1).number (AnEdge 0) ≡ 0)
        × ((two_updated.part 1).number (AnEdge 1) ≡ 1)
        × ((two_updated.part 2).number (AnEdge 1) ≡ 1)
        × ((two_updated.part 2).number (AnEdge 2) ≡ 0)
        × ((two_updated.part 3).number (AnEdge 2) ≡ 0) }
    ensures updates { (length (two_updated.part 2).log ≡ 1)
        × (length (two_updated.part 0).log ≡ 1)
        × (two_updated.next ≡ 2) }
{}

/// The same line. If a machine granted a lock that is held, as readers share locks, that lock would
/// have two holders. Then both updates could be made, each would give vertex 2 another number, and
/// no order would have both.
pub fn a_shared_lock_has_no_order()
    ensures holders { HaveOneHolder with_shared_lock → ⊥ }
    ensures may { IsFullRun each_on_its_own update_of_pairs with_shared_lock
        both_update both_updated }
    ensures order { (order : List Entry) →
        IsFullReplay each_on_its_own update_of_pairs both_updated order → ⊥ }
{}
