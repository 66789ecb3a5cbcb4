//! Laws of the end. Each is the contract of a function that does nothing.
ghost use Rattle.std.specs.Prelude.{◌≡◌, ◌⊎◌, ℕ, ◌+◌, ◌<◌, ◌≤◌, suc, length, slice_index_or, None, Some, List, [], ◌∷◌, ◌++◌, if◌then◌else◌};
ghost use Rattle.std.specs.List.{AllByRecursion};
ghost use Rattle.gl_base.specs.declared.scopes.Counted.{Counted};
ghost use Rattle.gl_base.specs.declared.entries.Entry.{Entry};
ghost use Rattle.cluster_laws.specs.cluster_core.Messages.{Section};
ghost use Rattle.cluster_laws.specs.cluster_core.Recovering.{going_on};
ghost use Rattle.cluster_laws.specs.cluster_core.Settings.{IsSetting, Locking, Setting};
ghost use Rattle.whole_laws.specs.cluster_ending.Ends.{HasEnded, HasFinishedOrder, IsFollowed, IsNoBegin};
ghost use Rattle.whole_laws.specs.cluster_ending.Snapshotting.{AreInformed, HasNoSteps, MayBeSaved, MayBegin, MayCommit};
ghost use Rattle.whole_laws.specs.cluster_ending.Watched.{HasNoTaskLeft, IsNotAbove, IsWatched, Watch, puts_wave_out};
ghost use Rattle.cluster_laws.specs.cluster_model.Calls.{Begin, Call, Committed, Count, Report, Saved, Step, Want, Wave};
ghost use Rattle.cluster_laws.specs.cluster_model.Clusters.{BaseView, Cluster, report_way};
ghost use Rattle.cluster_laws.specs.cluster_model.Counting.{MayBeCounted};
ghost use Rattle.cluster_laws.specs.cluster_model.Events.{Event, IsTrace, MayDo, after_event, recovers, setting_after};
ghost use Rattle.cluster_laws.specs.cluster_model.Leading.{HasSeenTheEnd};
ghost use Rattle.cluster_laws.specs.cluster_model.Machines.{Machine, count_of};
ghost use Rattle.cluster_laws.specs.cluster_model.Totals.{total};
ghost use Rattle.cluster_laws.specs.cluster_model.Working.{prompt};
ghost use Rattle.whole_laws.specs.cluster_whole.Steps.{counts_in, messages_between};
ghost use Rattle.whole_laws.specs.cluster_whole.Views.{world_of};
ghost use Rattle.whole_laws.specs.cluster_whole.Whole.{AreColoured, IsNoRecovery, IsWhole, setting_behind};

/// A recovery begins a cluster whose waves are as they should be; each event leaves them so, and so
/// does every list of events, with locks and with colours. `goes_on` says how many snapshots had
/// been begun when the last two waves were put out.
pub fn events_keep_waves()
    ensures begins { (st : Setting) (base : BaseView) (c : Cluster) → (watch : Watch) ×
        IsWatched (going_on st base.numbers base.number) (recovers st base c) watch }
    ensures goes_on { (st : Setting) (c : Cluster) (watch : Watch) (event : Event) →
        IsSetting st → IsWhole st c → IsWatched st c watch → MayDo st c event → IsNoRecovery event →
        (later : Watch)
        × IsWatched st (after_event st c event) later
        × (later.begun_before ≡ (if puts_wave_out event then watch.begun_newest
        else watch.begun_before))
        × (later.begun_newest ≡ (if puts_wave_out event then c.coordinator.begun
        else watch.begun_newest)) }
    ensures trace { (st : Setting) (events : List Event) (old new : Cluster) →
        IsSetting st → IsFollowed st old → IsTrace st old events new →
        IsFollowed (setting_behind st events) new }
{}

/// Where the last two waves showed the end, no machine has a task and no message on its way wakes a
/// vertex, whatever snapshots are under way. The order is finished, and each machine has made as
/// many updates as it told.
pub fn quiet_waves_leave_no_task()
    ensures tasks { (st : Setting) (c : Cluster) (watch : Watch) → IsWatched st c watch →
        HasSeenTheEnd c.coordinator → HasNoTaskLeft st (world_of c) }
    ensures updates { (st : Setting) (c : Cluster) (watch : Watch) (a : ℕ) (counts : Counted) →
        IsWatched st c watch → HasSeenTheEnd c.coordinator → a < st.machines →
        slice_index_or c.coordinator.rounds.counting.waves.wave a None ≡ Some counts →
        length (c.machine a).part.log ≡ counts.updates }
    ensures order { (st : Setting) (c : Cluster) → IsSetting st → IsFollowed st c →
        HasSeenTheEnd c.coordinator → HasFinishedOrder st c }
{}

/// Where besides no snapshot was begun since the first of the two waves was put out, nothing is
/// left: no task, no pending vertex, no scope in flight, nobody who waits for a lock, and no
/// message between machines.
pub fn quiet_waves_end_all()
    ensures watched { (st : Setting) (c : Cluster) (watch : Watch) →
        IsWhole st c → IsWatched st c watch → HasSeenTheEnd c.coordinator →
        watch.begun_before ≡ c.coordinator.begun → HasEnded st c }
    ensures since { (st : Setting) (events : List Event) (old new : Cluster) →
        IsSetting st → IsFollowed st old → AllByRecursion IsNoRecovery events →
        AllByRecursion IsNoBegin events → IsTrace st old events new →
        2 + old.coordinator.rounds.counting.put_out ≤
        new.coordinator.rounds.counting.put_out →
        HasSeenTheEnd new.coordinator → HasEnded st new }
    ensures no_snapshot { (st : Setting) (c : Cluster) →
        IsFollowed st c → HasSeenTheEnd c.coordinator →
        c.coordinator.begun ≡ st.base → HasEnded st c }
{}

/// The same of every list of events from the start of an attempt on, with failures and recoveries
/// among them.
pub fn traces_end_where_waves_say()
    ensures order { (st : Setting) (base : BaseView) (first : Cluster)
        (events : List Event) (c : Cluster) →
        IsSetting st → AreColoured st st.engine →
        IsTrace (going_on st base.numbers base.number) (recovers st base first) events c →
        HasSeenTheEnd c.coordinator →
        HasFinishedOrder (setting_behind (going_on st base.numbers base.number) events) c }
    ensures ended { (st : Setting) (base : BaseView) (first : Cluster)
        (events : List Event) (c : Cluster) →
        IsSetting st → AreColoured st st.engine →
        IsTrace (going_on st base.numbers base.number) (recovers st base first) events c →
        HasSeenTheEnd c.coordinator →
        c.coordinator.begun ≡ (setting_behind (going_on st base.numbers base.number) events).base →
        HasEnded (setting_behind (going_on st base.numbers base.number) events) c }
{}

/// Where no task is left none comes, whatever happens but a recovery, and no update is made.
pub fn no_task_comes_again()
    ensures { (st : Setting) (c : Cluster) (event : Event) →
        IsSetting st → IsWhole st c → HasNoTaskLeft st (world_of c) →
        MayDo st c event → IsNoRecovery event →
        HasNoTaskLeft st (world_of (after_event st c event))
        × ((a : ℕ) → length ((after_event st c event).machine a).part.log ≡ length
        (c.machine a).part.log) }
{}

/// What was sent was received or is on its way, with locks and with colours. What a machine tells
/// is what it counts right then, and neither counts on their way nor those that have come are above
/// its counts now.
pub fn counts_are_true()
    ensures balanced { (st : Setting) (c : Cluster) (watch : Watch) → IsWatched st c watch →
        total st.machines (λ a. (c.machine a).sent) ≡ total st.machines (λ a.
        (c.machine a).received) + messages_between st (world_of c) }
    ensures told { (st : Setting) (a : ℕ) (m : Machine) →
        ((prompt st a m).out ≡ m.out) ⊎
        ((k : ℕ) × ((prompt st a m).out ≡ m.out ++ Count k (count_of st (prompt st a m)) ∷ [])) }
    ensures on_way { (st : Setting) (c : Cluster) (watch : Watch) (a k : ℕ)
        (counts : Counted) (rest : List Report) →
        IsWatched st c watch → a < st.machines →
        counts_in (report_way c a) ≡ Count k counts ∷ rest →
        IsNotAbove counts (count_of st (c.machine a)) }
    ensures come { (st : Setting) (c : Cluster) (watch : Watch) (a : ℕ) (counts : Counted) →
        IsWatched st c watch → a < st.machines →
        slice_index_or c.coordinator.rounds.counting.waves.wave a None ≡ Some counts →
        IsNotAbove counts (count_of st (c.machine a)) }
{}

/// With locks and with colours a wave that comes first on its link is the newest one, and its
/// machine holds none; counts that come first are of the newest wave, and missing.
pub fn waves_may_be_received()
    ensures wave { (st : Setting) (c : Cluster) (watch : Watch) (a k : ℕ) (behind : List Call) →
        IsWatched st c watch → a < st.machines → c.calls a ≡ Wave k ∷ behind →
        (suc k ≡ c.coordinator.rounds.counting.put_out) × ((c.machine a).held ≡ None) }
    ensures counts { (st : Setting) (c : Cluster) (watch : Watch) (a k : ℕ) (counts : Counted)
        (behind : List Report) →
        IsWatched st c watch → a < st.machines → c.reports a ≡ Count k counts ∷ behind →
        MayBeCounted c.coordinator.rounds.counting a k }
{}

/// What machines and coordinator know of each other's snapshots: a recovery begins it, and each
/// event and every list of events keeps it.
pub fn events_keep_machines_informed()
    ensures begins { (st : Setting) (base : BaseView) (c : Cluster) →
        AreInformed (recovers st base c) }
    ensures goes_on { (st : Setting) (c : Cluster) (event : Event) → IsWhole st c → AreInformed c →
        MayDo st c event → AreInformed (after_event st c event) }
    ensures trace { (st : Setting) (events : List Event) (old new : Cluster) →
        IsSetting st → IsWhole st old → AreInformed old →
        IsTrace st old events new → AreInformed new }
{}

/// With locks and with colours: a snapshot that comes to a machine is none that is new to it, or
/// the next one, and then all its vertices have the mark of the one before. One that is
/// acknowledged is the next one that the machine doesn't know to be, and the machine has the length
/// of its section. A section is of the snapshot under way, and none of its machine has come. A want
/// is of no newer snapshot than the acknowledged one.
pub fn snapshots_may_be_received()
    ensures begin { (st : Setting) (c : Cluster) (a k : ℕ) (behind : List Call) →
        IsWhole st c → a < st.machines → c.calls a ≡ Begin k ∷ behind → (k ≤ c.coordinator.begun) ×
        MayBegin st a k (c.machine a) }
    ensures committed { (st : Setting) (c : Cluster) (a k : ℕ) (behind : List Call) →
        IsWhole st c → AreInformed c → a < st.machines → c.calls a ≡ Committed k ∷ behind →
        MayCommit k (c.machine a) }
    ensures saved { (st : Setting) (c : Cluster) (a k : ℕ) (section : Section)
        (entries : List Entry) (behind : List Report) →
        IsWhole st c → AreInformed c → a < st.machines →
        c.reports a ≡ Saved k section entries ∷ behind → MayBeSaved a k c.coordinator }
    ensures want { (c : Cluster) (a k : ℕ) (behind : List Report) →
        AreInformed c → c.reports a ≡ Want k ∷ behind → k ≤ c.coordinator.acknowledged }
{}

/// With locks no step is ever on its way: a recovery begins so, and each event and every list of
/// events leaves it so.
pub fn locks_know_no_steps()
    ensures begins { (st : Setting) (base : BaseView) (c : Cluster) →
        HasNoSteps (recovers st base c) }
    ensures goes_on { (st : Setting) (c : Cluster) (event : Event) → st.engine ≡ Locking →
        HasNoSteps c → MayDo st c event → HasNoSteps (after_event st c event) }
    ensures trace { (st : Setting) (events : List Event) (old new : Cluster) →
        st.engine ≡ Locking → HasNoSteps old → IsTrace st old events new → HasNoSteps new }
    ensures front { (c : Cluster) (a colour : ℕ) (behind : List Call) → HasNoSteps c →
        c.calls a ≡ Step colour ∷ behind → ⊥ }
{}
