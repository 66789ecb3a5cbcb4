//! Laws about clusters in the course of a call. Each is the contract of a function that does
//! nothing.
ghost use Rattle.std.specs.Prelude.{List, [], ℕ, ◌≡◌};
ghost use Rattle.gl_base.specs.declared.jobs.FailureAt.{FailureAt};
ghost use Rattle.call_laws.specs.attempts.Beginnings.{held_updates};
ghost use Rattle.call_laws.specs.attempts.EngineCalls.{AreAttempts, begins_behind};
ghost use Rattle.cluster_laws.specs.cluster_cuts.Goings.{AreUpdatesFrom};
ghost use Rattle.cluster_laws.specs.cluster_runs.Attempts.{Attempt, Beginning};
ghost use Rattle.cluster_laws.specs.cluster_core.Replays.{entries_of};
ghost use Rattle.call_laws.specs.cluster_attempts.CallsSoFar.{IsCallSoFar, attempt_of};
ghost use Rattle.call_laws.specs.cluster_attempts.Failures.{KeepToJob};
ghost use Rattle.cluster_laws.specs.cluster_core.Settings.{IsSetting, Setting};
ghost use Rattle.cluster_laws.specs.cluster_model.Clusters.{BaseView, Cluster};
ghost use Rattle.cluster_laws.specs.cluster_model.Events.{Event, IsTrace, recovers};
ghost use Rattle.cluster_laws.specs.cluster_model.Machines.{completed};
ghost use Rattle.whole_laws.specs.cluster_records.Bases.{IsBased};
ghost use Rattle.whole_laws.specs.cluster_records.Recorded.{IsAccounted};
ghost use Rattle.cluster_laws.specs.cluster_runs.Recorded.{shared_of};
ghost use Rattle.whole_laws.specs.cluster_whole.Logged.{Logged, all_entries, entries_to};
ghost use Rattle.whole_laws.specs.cluster_whole.Whole.{IsWhole, setting_behind};

/// Every list of events, with failures and recoveries among them, makes attempts, one after
/// another: each failed one reached a failure and the next one began with what its newest snapshot
/// had and a restart for each failure, and the last one is what the cluster has made since. The
/// premises are that machines fail at each recovery as the job orders, and stop there.
pub fn traces_are_attempts()
    ensures begins { (st : Setting) (failures : List FailureAt) (b : Beginning)
        (base : BaseView) (c : Cluster) →
        base.order ≡ b.front → c.next ≡ b.next → ((a : ℕ) → completed (c.machine a) ≡ b.done a) →
        IsCallSoFar (shared_of st failures) b (recovers st base c) [] [] }
    ensures goes_on { (st : Setting) (failures : List FailureAt) (b : Beginning)
        (events : List Event) (old new : Cluster) (whole : IsWhole st old) (logged : List Logged)
        (failed : List Attempt) → IsSetting st → IsTrace st old events new →
        IsAccounted st old whole logged → IsBased st old logged →
        IsCallSoFar (shared_of st failures) b old logged failed → KeepToJob st failures old events →
        (next : IsWhole (setting_behind st events) new) × (now : List Logged)
        × IsAccounted (setting_behind st events) new next now
        × IsBased (setting_behind st events) new now
        × (more : List Attempt)
        × IsCallSoFar (shared_of st failures) b new now more
        × AreAttempts (shared_of st failures) b more
        (attempt_of failures (begins_behind b more) new now) }
{}

/// The logs of the machines are the parts of what the newest attempt has made, and what its last
/// snapshot holds of that are the updates that are logged for the newest acknowledged snapshot.
pub fn records_are_held()
    ensures logs { (st : Setting) (c : Cluster) (whole : IsWhole st c) (logged : List Logged)
        (a : ℕ) → IsAccounted st c whole logged →
        (c.machine a).part.log ≡ entries_of a (all_entries logged) }
    ensures held { (st : Setting) (failures : List FailureAt) (b : Beginning) (c : Cluster)
        (whole : IsWhole st c) (logged : List Logged) →
        IsSetting st → IsAccounted st c whole logged → AreUpdatesFrom b.next (all_entries logged) →
        held_updates (attempt_of failures b c logged) ≡ entries_to
        c.coordinator.acknowledged logged }
{}
