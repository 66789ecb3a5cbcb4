//! Worked examples. Each is the contract of a function that does nothing.
ghost use Rattle.std.specs.Prelude.{◌≡◌, ◌⊎◌, ℕ, [], ◌∷◌};
ghost use Rattle.cluster_laws.specs.cluster_model.Calls.{Want};
ghost use Rattle.cluster_laws.specs.cluster_model.Clusters.{Cluster};
ghost use Rattle.cluster_laws.specs.cluster_model.Events.{Admit, Grant, IsTrace, MayDo, entries_in_all, newest_of, recovers};
ghost use Rattle.cluster_laws.specs.cluster_model.Machines.{outside};
ghost use Rattle.cluster_laws.specs.cluster_places.Steps.{AreApart};
ghost use Rattle.whole_laws.specs.cluster_records.LineOfFour.{colour_in_line, first_step, in_first_step, line_base, line_in_colours};
ghost use Rattle.whole_laws.specs.cluster_records.LonePair.{pair_alone, pair_at_first, pair_entry, pair_saved, pair_saves, pair_updated, pair_updates};

/// Four vertices in a line, with the colours 1, 2, 1, 2: in the step of colour 1 the first and the
/// third may be admitted and no other, and no lock is granted.
pub fn a_step_of_one_colour()
    ensures colours { AreApart line_in_colours colour_in_line }
    ensures trace { (c : Cluster) →
        IsTrace line_in_colours (recovers line_in_colours line_base c)
        first_step (in_first_step c) }
    ensures offered { (c : Cluster) → MayDo line_in_colours (in_first_step c) (Admit 0 0) ×
        MayDo line_in_colours (in_first_step c) (Admit 1 2) }
    ensures no_other { (c : Cluster) (a v : ℕ) →
        MayDo line_in_colours (in_first_step c) (Admit a v) → (v ≡ 0) ⊎ (v ≡ 2) }
    ensures no_grant { (c : Cluster) (a x : ℕ) →
        MayDo line_in_colours (in_first_step c) (Grant a x) → ⊥ }
{}

/// Two vertices without an edge on one machine, with a window of 1. The update of the first puts
/// out the machine's word that it wants a snapshot, and the second may not be admitted. The word
/// comes, a snapshot begins, both vertices are marked, and it is recorded: it has the one update,
/// and the numbers 1 and 2. Once the machine knows that, nothing is outside, and the second vertex
/// may be admitted.
pub fn a_snapshot_that_is_asked_for()
    ensures updates { IsTrace pair_alone pair_at_first pair_updates pair_updated }
    ensures asked { ((pair_updated.machine 0).out ≡ Want 0 ∷ []) ×
        ((pair_updated.machine 0).behind ≡ pair_entry ∷ []) }
    ensures not_now { MayDo pair_alone pair_updated (Admit 0 1) → ⊥ }
    ensures saves { IsTrace pair_alone pair_updated pair_saves pair_saved }
    ensures saved { (entries_in_all pair_alone pair_saved.coordinator.snapshots ≡ pair_entry ∷ [])
        × ((newest_of pair_alone pair_saved.coordinator.snapshots pair_alone.start).vertex 0 ≡ 1)
        × ((newest_of pair_alone pair_saved.coordinator.snapshots pair_alone.start).vertex 1 ≡ 2)
        × (pair_saved.coordinator.acknowledged ≡ 1)
        × (outside (pair_saved.machine 0) ≡ 0) }
    ensures again { MayDo pair_alone pair_saved (Admit 0 1) }
{}
