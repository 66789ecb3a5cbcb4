//! Laws of the entries of snapshots. Each is the contract of a function that does nothing.
ghost use Rattle.std.specs.List.Sorted.{IsPermutation};
ghost use Rattle.std.specs.Prelude.{◌≡◌, ◌↔◌, ◌⊎◌, ℕ, suc, ◌+◌, ◌/◌, ◌<◌, ◌≤◌, true, List, [], ◌∷◌, ◌++◌, length, Some};
ghost use Rattle.std.specs.List.{AllByRecursion};
ghost use Rattle.cluster_laws.specs.cluster_core.Cuts.{Begins, cut_of, updates_at};
ghost use Rattle.cluster_laws.specs.cluster_core.Recovering.{going_on};
ghost use Rattle.graph_core.specs.DataGraph.{size};
ghost use Rattle.seq_run.specs.Orders.{IsValidOrder, replay, tasks_after};
ghost use Rattle.seq_run.specs.States.{start_state};
ghost use Rattle.cluster_laws.specs.cluster_core.Replays.{IsTask};
ghost use Rattle.cluster_laws.specs.cluster_core.Settings.{IsSetting, Setting};
ghost use Rattle.cluster_laws.specs.cluster_model.ByTicket.{StandByTicket, restarts};
ghost use Rattle.cluster_laws.specs.cluster_model.Clusters.{BaseView, Cluster, call_way, report_way};
ghost use Rattle.cluster_laws.specs.cluster_model.Events.{Event, GoesBackTo, IsTrace, MayDo, Section, after_event, entries_in_all, failures_in, recovers, snapshot_numbers};
ghost use Rattle.cluster_laws.specs.cluster_model.Leading.{Come, RecordIsDue, Snapshot, acknowledges, entries_in};
ghost use Rattle.cluster_laws.specs.cluster_model.Machines.{outside};
ghost use Rattle.cluster_laws.specs.cluster_model.Totals.{total};
ghost use Rattle.cluster_laws.specs.cluster_model.Working.{half_window};
ghost use Rattle.whole_laws.specs.cluster_records.Bases.{IsBase, IsBased};
ghost use Rattle.whole_laws.specs.cluster_records.Few.{snapshots_in_all, unasked_in, under_way};
ghost use Rattle.whole_laws.specs.cluster_records.Listed.{entries_at};
ghost use Rattle.whole_laws.specs.cluster_records.Recorded.{HaveSameNumbers, IsAccounted, IsGoodSnapshot, snapshot_due};
ghost use Rattle.whole_laws.specs.cluster_records.Wanting.{AreAsking, known_by_calls, entries_outside, want_told};
ghost use Rattle.whole_laws.specs.cluster_whole.Logged.{Logged, entries_to};
ghost use Rattle.whole_laws.specs.cluster_whole.Views.{world_of};
ghost use Rattle.whole_laws.specs.cluster_whole.Whole.{AreColoured, IsNoRecovery, IsWhole, setting_behind};

/// Each event but a recovery goes on with the updates that are logged for snapshots, and each of
/// them stands where it belongs. A machine's list before the marks is its updates for the snapshot
/// that it knows, until its section is sent; its list behind the marks is those for the next one. A
/// section on its way, or come, has its machine's updates that the newest snapshot is the first to
/// have. The snapshots that were acknowledged are good. What is logged later is of no snapshot that
/// was acknowledged. A recovery begins with no update.
pub fn events_keep_accounts()
    ensures begins { (st : Setting) (base : BaseView) (c : Cluster) → IsSetting st →
        AreColoured st st.engine →
        (whole : IsWhole (going_on st base.numbers base.number) (recovers st base c))
        × IsAccounted (going_on st base.numbers base.number) (recovers st base c) whole [] }
    ensures goes_on { (st : Setting) (c : Cluster) (whole : IsWhole st c) (event : Event)
        (logged : List Logged) → IsSetting st → MayDo st c event → IsNoRecovery event →
        IsAccounted st c whole logged → (next : IsWhole st (after_event st c event))
        × (more : List Logged) × AllByRecursion (λ l. c.coordinator.acknowledged < l.number) more
        × IsAccounted st (after_event st c event) next (logged ++ more) }
{}

/// A section that a machine sends is of the newest snapshot, and has just those of its updates that
/// the snapshot is the first to have.
pub fn sections_have_their_entries()
    ensures { (st : Setting) (c : Cluster) (whole : IsWhole st c) (a : ℕ) (logged : List Logged) →
        IsSetting st → MayDo st c (Section a) → IsAccounted st c whole logged →
        ((c.machine a).part.known ≡ c.coordinator.begun) ×
        ((c.machine a).before ≡ entries_at a c.coordinator.begun logged) }
{}

/// Where a record is due, each section that has come has just those updates of its machine that the
/// snapshot is the first to have.
pub fn records_have_their_entries()
    ensures { (st : Setting) (c : Cluster) (whole : IsWhole st c) (a : ℕ) (logged : List Logged) →
        IsSetting st → IsAccounted st c whole logged →
        RecordIsDue st c.coordinator → a < st.machines →
        (come : Come) × (c.coordinator.come a ≡ Some come) ×
        (come.entries ≡ entries_at a c.coordinator.begun logged) }
{}

/// The entries of all snapshots of an attempt together are the updates that the last one has, each
/// once. A record is of the next number, adds a good snapshot, and makes that the cut of the order.
/// Each snapshot begins, at each vertex, with those before.
pub fn records_make_cuts()
    ensures updates { (st : Setting) (c : Cluster) (whole : IsWhole st c) (logged : List Logged) →
        IsSetting st → IsAccounted st c whole logged →
        IsPermutation (entries_in_all st c.coordinator.snapshots)
        (entries_to c.coordinator.acknowledged logged) }
    ensures record { (st : Setting) (c : Cluster) (whole : IsWhole st c) (logged : List Logged) →
        IsSetting st → IsAccounted st c whole logged → RecordIsDue st c.coordinator →
        (c.coordinator.begun ≡ suc c.coordinator.acknowledged)
        × IsGoodSnapshot st logged (snapshot_due c.coordinator)
        × IsPermutation (entries_in_all st (acknowledges st c.coordinator).snapshots)
        (cut_of whole.consistent.count whole.consistent.order) }
    ensures begins { (st : Setting) (c : Cluster) (whole : IsWhole st c) (logged : List Logged)
        (one other : Snapshot) (v : ℕ) → IsAccounted st c whole logged →
        IsGoodSnapshot st logged one → IsGoodSnapshot st logged other → one.number ≤ other.number →
        Begins (updates_at v (entries_to one.number logged))
        (updates_at v (entries_to other.number logged)) }
{}

/// Where the snapshots of an attempt have as many entries as the machines have logged, they have
/// all updates of the order, each once, and the newest snapshot's cut is the order.
pub fn full_snapshots_hold_all()
    ensures { (st : Setting) (c : Cluster) (whole : IsWhole st c) (logged : List Logged) →
        IsSetting st → IsAccounted st c whole logged →
        entries_in st c.coordinator ≡ total st.machines (λ a. length (c.machine a).part.log) →
        (entries_to c.coordinator.acknowledged logged ≡ whole.consistent.order)
        × IsPermutation (entries_in_all st c.coordinator.snapshots) whole.consistent.order }
{}

/// No snapshot that was acknowledged is taken back: within an attempt, whatever happens, the
/// coordinator has those that it had, and perhaps more behind them.
pub fn snapshots_stay()
    ensures { (st : Setting) (events : List Event) (old new : Cluster) →
        AllByRecursion IsNoRecovery events → IsTrace st old events new →
        (more : List Snapshot) × (new.coordinator.snapshots ≡ old.coordinator.snapshots ++ more) }
{}

/// A machine that failed does nothing more in its attempt: whatever happens, all that it has stays
/// as it is until a recovery.
pub fn failed_machines_stop()
    ensures { (st : Setting) (events : List Event) (old new : Cluster) (a : ℕ) →
        AllByRecursion IsNoRecovery events → IsTrace st old events new →
        (old.machine a).failed ≡ true → new.machine a ≡ old.machine a }
{}

/// A recovery goes back to the newest acknowledged snapshot. The base's order is that of the base
/// before, the updates that the newest snapshot has besides, in the order in which they were made,
/// and a restart for each failure. Its numbers are the replay of that order from the start state of
/// the program on. Whatever happens in a call, this chains.
pub fn recoveries_go_back()
    ensures { (st : Setting) (c : Cluster) (whole : IsWhole st c)
        (logged : List Logged) (base : BaseView) →
        IsSetting st → IsAccounted st c whole logged → IsBased st c logged → GoesBackTo st c base →
        (base.number ≡ c.coordinator.acknowledged) × (base.order ≡ (c.base.order ++
        entries_to c.coordinator.acknowledged logged) ++ restarts (failures_in st c) c.next)
        × IsBase st base c.next }
{}

/// The base's order and the updates of the attempt are one valid order from the start state of the
/// program on, and it stands by ticket. Its replay on the undivided graph gives the numbers that
/// the owners of the vertices have, and its tasks are theirs and those that are on the way. So is
/// the order of each good snapshot, behind the base's, and its numbers are the replay of that.
pub fn calls_have_one_order()
    ensures order { (st : Setting) (c : Cluster) (whole : IsWhole st c) (logged : List Logged) →
        IsSetting st → IsAccounted st c whole logged → IsBased st c logged →
        IsValidOrder st.graph st.program (c.base.order ++ whole.consistent.order)
        × StandByTicket 0 (c.base.order ++ whole.consistent.order) c.next
        × ((v : ℕ) → v < size st.graph →
        ((c.machine (st.owner v)).part.datum v).value ≡
        (replay st.graph st.program (c.base.order ++ whole.consistent.order)).vertex v)
        × ((u : ℕ) → u < size st.graph →
        (tasks_after st.graph st.program (c.base.order ++ whole.consistent.order) u ≡ true) ↔
        IsTask st (world_of c) u) }
    ensures snapshots { (st : Setting) (c : Cluster) (whole : IsWhole st c)
        (logged : List Logged) (snapshot : Snapshot) →
        IsSetting st → IsAccounted st c whole logged → IsBased st c logged →
        IsGoodSnapshot st logged snapshot →
        IsValidOrder st.graph st.program (c.base.order ++ entries_to snapshot.number logged)
        × HaveSameNumbers st.graph (snapshot_numbers st snapshot)
        (replay st.graph st.program (c.base.order ++ entries_to snapshot.number logged)) }
{}

/// After every list of events, with failures and recoveries among them, the updates of the newest
/// attempt are accounted for, and it goes on from its base. The first base of a call may be no
/// order with the start state.
pub fn traces_keep_accounts()
    ensures first { (st : Setting) (next : ℕ) →
        IsBase st (record {
          number = 0;
          order = [];
          numbers = start_state st.graph st.program;
        }) next }
    ensures begins { (st : Setting) (base : BaseView) (c : Cluster) → IsSetting st →
        AreColoured st st.engine → IsBase st base c.next →
        (whole : IsWhole (going_on st base.numbers base.number) (recovers st base c))
        × IsAccounted (going_on st base.numbers base.number) (recovers st base c) whole []
        × IsBased (going_on st base.numbers base.number) (recovers st base c) [] }
    ensures goes_on { (st : Setting) (events : List Event) (old new : Cluster)
        (whole : IsWhole st old) (logged : List Logged) →
        IsSetting st → IsTrace st old events new →
        IsAccounted st old whole logged → IsBased st old logged →
        (next : IsWhole (setting_behind st events) new) × (now : List Logged)
        × IsAccounted (setting_behind st events) new next now
        × IsBased (setting_behind st events) new now }
{}

/// What a machine counts as outside is its updates that the newest snapshot which it knows to be
/// acknowledged doesn't have. Where that is at least half of its window, it has asked: word of a
/// newer snapshot is on its way to it, or its own word is on its way to the coordinator, or the
/// coordinator knows that a snapshot is wanted. And the coordinator knows that only where half of
/// some machine's window is outside the newest snapshot.
pub fn machines_ask_in_time()
    ensures begins { (st : Setting) (base : BaseView) (c : Cluster) →
        AreAsking (going_on st base.numbers base.number) (recovers st base c) [] }
    ensures goes_on { (st : Setting) (c : Cluster) (whole : IsWhole st c) (event : Event)
        (logged : List Logged) →
        IsSetting st → MayDo st c event → IsNoRecovery event →
        IsAccounted st c whole logged → AreAsking st c logged →
        (next : IsWhole st (after_event st c event)) × (more : List Logged)
        × IsAccounted st (after_event st c event) next (logged ++ more) ×
        AreAsking st (after_event st c event) (logged ++ more) }
    ensures counted { (st : Setting) (c : Cluster) (whole : IsWhole st c)
        (logged : List Logged) (a : ℕ) →
        IsSetting st → IsAccounted st c whole logged → AreAsking st c logged → a < st.machines →
        outside (c.machine a) ≡ length (entries_outside a (c.machine a).acknowledged logged) }
    ensures asked { (st : Setting) (c : Cluster) (logged : List Logged) (a : ℕ) →
        AreAsking st c logged → a < st.machines → 0 < half_window st → st.stored ≡ true →
        half_window st ≤ outside (c.machine a) →
        ((rest : List ℕ) × (known_by_calls (call_way c a) ≡ suc (c.machine a).acknowledged ∷ rest))
        ⊎ ((want_told (c.machine a).acknowledged (report_way c a) ≡ true) ⊎
        (c.coordinator.wanted ≡ true)) }
    ensures wanted { (st : Setting) (c : Cluster) (logged : List Logged) → AreAsking st c logged →
        c.coordinator.wanted ≡ true →
        (a : ℕ) × (a < st.machines) ×
        (half_window st ≤ length (entries_outside a c.coordinator.acknowledged logged)) }
{}

/// Whatever happens in a call, failures and recoveries among it: each snapshot that a machine asked
/// for has at least half a window of updates more than the one before. So the snapshots that are
/// stored, with one that is under way, are at most as many as halves of the window are in the
/// tickets that are left at the beginning, and besides those that nobody asked for.
pub fn snapshots_are_few()
    ensures { (st : Setting) (base : BaseView) (c : Cluster) (events : List Event) (new : Cluster) →
        IsSetting st → AreColoured st st.engine → 0 < half_window st →
        IsTrace (going_on st base.numbers base.number) (recovers st base c) events new →
        snapshots_in_all events + under_way new ≤ c.left / half_window st +
        unasked_in (going_on st base.numbers base.number) (recovers st base c) events }
{}
