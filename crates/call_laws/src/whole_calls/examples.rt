//! Worked examples. Each is the contract of a function that does nothing.
ghost use Rattle.std.specs.Prelude.{[], false, length, true, ◌++◌, ◌∷◌, ◌≡◌};
ghost use Rattle.gl_base.specs.declared.entries.Entry.TheVariants.{Go};
ghost use Rattle.whole_laws.specs.cluster_ending.FourWaves.{first_base, fresh_cluster, lone_events, started_from};
ghost use Rattle.cluster_laws.specs.cluster_model.Events.{DeliverCall, entries_in_all};
ghost use Rattle.cluster_laws.specs.cluster_model.Machines.{completed};
ghost use Rattle.whole_laws.specs.cluster_records.Few.{unasked_in};
ghost use Rattle.whole_laws.specs.cluster_records.LonePair.{pair_alone, pair_at_first, pair_base, pair_cluster};
ghost use Rattle.call_laws.specs.whole_calls.EndSaved.{one_saved, one_saves, one_with_store};
ghost use Rattle.call_laws.specs.whole_calls.Following.{FollowsJob, has_reached};
ghost use Rattle.call_laws.specs.whole_calls.Opened.{IsTraceOfCall};
ghost use Rattle.call_laws.specs.whole_calls.PairAgain.{pair_again, pair_trace, pair_failed, pair_failures, pair_twice};
ghost use Rattle.call_laws.specs.whole_calls.Saved.{recorded_in};
ghost use Rattle.call_laws.specs.whole_calls.Telling.{HasSavedTheEnd};

/// Two vertices on one machine with a window of 1, which is to fail at its second update. The first
/// update is saved by a snapshot that the machine asks for; with the second it has reached its
/// count, and may hear nothing more. It fails, and all go back to the snapshot. The premises of the
/// law of calls are met: one snapshot was acknowledged, and two of the three tickets were drawn.
pub fn a_call_that_goes_back()
    ensures premises { IsTraceOfCall pair_alone pair_failures [] false pair_base pair_cluster
        pair_trace pair_again }
    ensures recorded { length (recorded_in pair_alone pair_at_first pair_trace) ≡ 1 }
    ensures reached { (has_reached pair_failures pair_twice 0 ≡ true) ×
        (FollowsJob pair_alone pair_failures pair_twice (DeliverCall 0) → ⊥) }
    ensures failed { ((pair_failed.machine 0).failed ≡ true) ×
        ((pair_again.machine 0).failed ≡ false) }
    ensures counts { (completed (pair_again.machine 0) ≡ 2) ×
        (pair_again.next ≡ 2) × (pair_again.left ≡ 1) }
{}

/// One vertex on one machine with a store and a window of 4. Its one update is no reason to ask for
/// a snapshot. Two waves show the end, and the coordinator begins a snapshot that no machine asked
/// for; when that is acknowledged no other is due.
pub fn a_snapshot_for_the_end()
    ensures premises { IsTraceOfCall one_with_store [] [] false (first_base one_with_store)
        (fresh_cluster one_with_store) (lone_events ++ one_saves) one_saved }
    ensures unasked { unasked_in one_with_store (started_from one_with_store)
        (lone_events ++ one_saves) ≡ 1 }
    ensures ended { HasSavedTheEnd one_with_store one_saved.coordinator }
    ensures saved { entries_in_all one_with_store one_saved.coordinator.snapshots ≡ Go
        (record { 0 = 0 }) (record { 0 = 0 }) 0 ∷ [] }
{}
