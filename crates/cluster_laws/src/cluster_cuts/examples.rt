//! A worked example of a snapshot. It is the contract of a function that does nothing.
ghost use Rattle.std.specs.Prelude.{◌≡◌, true, false, Some, [], ◌∷◌};
ghost use Rattle.gl_base.specs.declared.entries.Entry.TheVariants.{Go};
ghost use Rattle.gl_base.specs.declared.limits.TheConstants.{INF};
ghost use Rattle.cluster_laws.specs.cluster_core.Actions.{MayRecord, MayUpdate};
ghost use Rattle.cluster_laws.specs.cluster_core.Cuts.{cut_of};
ghost use Rattle.cluster_laws.specs.cluster_core.Replays.{replay_of};
ghost use Rattle.cluster_laws.specs.cluster_core.Runs.{IsActionRun, IsStart};
ghost use Rattle.cluster_laws.specs.cluster_core.Settings.{IsSetting};
ghost use Rattle.cluster_laws.specs.cluster_core.Snapshots.{IsUnmarked};
ghost use Rattle.cluster_laws.specs.cluster_cuts.Goings.{HoldCut};
ghost use Rattle.cluster_laws.specs.cluster_cuts.TwoMachines.{all_are_marked, at_first, both_updates, first_mark, last_locks, last_ready, last_update, last_updated, middle_mark, middle_marked, middle_update, middle_updated, on_two_machines, one_of_middle, scope_of, sections_are_there, sections_come};

/// Paths from vertex 1 along the edges 1 2 of weight 4 and 2 3 of weight 5; vertex 1 is on machine
/// 0, the others are on machine 1. The update of vertex 2 gives it 4 and marks its first edge. Then
/// a snapshot begins at machine 1: vertex 2 is marked first, and its neighbours become pending,
/// vertex 1 once machine 0 has heard of it. Vertex 3 isn't updated before it is marked too. Then it
/// is, and gets 9; but the snapshot has the numbers before that: the cut has the first update
/// alone.
pub fn a_snapshot_of_the_first_update()
    ensures setting { IsSetting on_two_machines }
    ensures start { IsStart on_two_machines at_first }
    ensures unmarked { IsUnmarked on_two_machines at_first }
    ensures middle_may { IsActionRun on_two_machines at_first middle_update middle_updated }
    ensures mark_may { IsActionRun on_two_machines middle_updated middle_mark middle_marked }
    ensures ready_may { IsActionRun on_two_machines middle_marked last_locks last_ready }
    ensures last_may { IsActionRun on_two_machines last_ready last_update last_updated }
    ensures first_may { IsActionRun on_two_machines last_updated first_mark all_are_marked }
    ensures sections_may { IsActionRun on_two_machines all_are_marked
        sections_come sections_are_there }
    ensures first_update { (((middle_updated.part 1).datum 1).value ≡ 4) ×
        ((middle_updated.part 1).edge 0 ≡ 1) × ((middle_updated.part 1).edge 1 ≡ 0) }
    ensures pending { ((middle_marked.part 1).pending 2 ≡ true) ×
        ((middle_marked.part 1).pending 1 ≡ false) × ((middle_marked.part 0).pending 0 ≡ false) }
    ensures known { ((middle_marked.part 0).known ≡ 0) × ((all_are_marked.part 0).known ≡ 1) }
    ensures not_now { MayUpdate (scope_of 1 2) (last_ready.part 1) last_ready.left → ⊥ }
    ensures second_update { (((last_updated.part 1).datum 2).value ≡ 9) ×
        ((last_updated.part 1).edge 1 ≡ 1) × ((last_updated.part 1).log ≡ both_updates) }
    ensures record_may { MayRecord on_two_machines sections_are_there }
    ensures cut { cut_of one_of_middle both_updates ≡ Go (record { 0 = 1 })
        (record { 0 = 1 }) 0 ∷ [] }
    ensures numbers { let shown = replay_of on_two_machines (cut_of one_of_middle both_updates) in
        (shown.vertex 0 ≡ 0) × (shown.vertex 1 ≡ 4) × (shown.vertex 2 ≡ INF) ×
        (shown.edge 0 ≡ 1) × (shown.edge 1 ≡ 0) }
    ensures held { HoldCut on_two_machines sections_are_there one_of_middle both_updates }
{}
