//! Laws of whole calls. Each is the contract of a function that does nothing.
ghost use Rattle.std.specs.List.{AllByRecursion};
ghost use Rattle.std.specs.Prelude.{Bool, List, false, filter, length, true, ℕ, ◌++◌, ◌+◌, ◌/◌, ◌<◌, ◌≡◌, ◌≤◌};
ghost use Rattle.gl_base.specs.declared.entries.Entry.{Entry};
ghost use Rattle.gl_base.specs.declared.jobs.FailureAt.{FailureAt};
ghost use Rattle.call_laws.specs.attempts.EngineCalls.{EngineCall, lost_of, made_of};
ghost use Rattle.call_laws.specs.attempts.Entries.{is_restart};
ghost use Rattle.call_laws.specs.attempts.Stores.{last_order, snapshots_of};
ghost use Rattle.cluster_laws.specs.cluster_core.Recovering.{going_on};
ghost use Rattle.cluster_laws.specs.cluster_core.Settings.{Setting};
ghost use Rattle.cluster_laws.specs.cluster_model.Clusters.{BaseView, Cluster};
ghost use Rattle.cluster_laws.specs.cluster_model.ByTicket.{restarts};
ghost use Rattle.cluster_laws.specs.cluster_model.Events.{Event, GoesBackTo, failures_in, recovers};
ghost use Rattle.cluster_laws.specs.cluster_model.Leading.{Snapshot};
ghost use Rattle.cluster_laws.specs.cluster_model.Working.{half_window};
ghost use Rattle.whole_laws.specs.cluster_records.Recorded.{HaveSameNumbers};
ghost use Rattle.whole_laws.specs.cluster_whole.Whole.{setting_behind};
ghost use Rattle.cluster_laws.specs.merged_logs.Merges.{IsByMachineBelow, IsMerge};
ghost use Rattle.seq_run.specs.Orders.{replay};
ghost use Rattle.whole_laws.specs.cluster_records.Few.{under_way};
ghost use Rattle.call_laws.specs.whole_calls.Called.{IsCallOf, KeepsWindows};
ghost use Rattle.call_laws.specs.whole_calls.Following.{has_reached};
ghost use Rattle.call_laws.specs.whole_calls.Lost.{AreLostIn, TakesAway, all_logged, is_lacking, machine_logs};
ghost use Rattle.call_laws.specs.whole_calls.Opened.{IsTraceOfCall};
ghost use Rattle.call_laws.specs.whole_calls.Saved.{AreNextOrders, AreSnapshotsOf, fronts_in, recorded_in};
ghost use Rattle.call_laws.specs.whole_calls.Telling.{CallReport};

/// Every list of events from the opening of a call on, with failures and recoveries among them,
/// makes a call: attempts that failed, one after another, and a last one. Where snapshots are
/// taken, each attempt keeps the window. The snapshots that were acknowledged are those of the
/// call, each with its numbers and with what it has more than the one before; and they are at most
/// one more than halves of the window go into the budget. What waves and tickets tell is so of the
/// call. What the recoveries took away is what the call lost.
pub fn traces_are_calls()
    ensures { (st : Setting) (failures : List FailureAt) (kept : List Entry) (resumed : Bool)
        (base : BaseView) (first : Cluster) (events : List Event) (c : Cluster) →
        IsTraceOfCall st failures kept resumed base first events c →
        (call : EngineCall)
        × IsCallOf st failures kept resumed c call
        × (st.stored ≡ true → KeepsWindows st failures call)
        × AreSnapshotsOf st base.number kept
        (recorded_in (going_on st base.numbers base.number) (recovers st base first) events)
        (snapshots_of call)
        × (0 < half_window st →
        length (snapshots_of call) + under_way c ≤ first.left / half_window st + 1)
        × CallReport st first.left c call
        × ((lost : List Entry) →
        AreLostIn (going_on st base.numbers base.number) (recovers st base first) events lost →
        lost_of call ≡ lost)
        × AreNextOrders st kept
        (fronts_in (going_on st base.numbers base.number) (recovers st base first) events)
        (recorded_in (going_on st base.numbers base.number) (recovers st base first) events)
        (snapshots_of call)
        × AllByRecursion (IsByMachineBelow st.machines) (made_of call)
        × (((a : ℕ) → a < st.machines → has_reached failures c a ≡ false) → call.last.struck ≡ 0) }
{}

/// What snapshots bring tells their orders: there is one list of them.
pub fn orders_are_one()
    ensures { (st : Setting) (before : List Entry) (fronts : List (List Entry))
        (snapshots : List Snapshot) (orders others : List (List Entry)) →
        AreNextOrders st before fronts snapshots orders →
        AreNextOrders st before fronts snapshots others → orders ≡ others }
{}

/// Where machines have failed, and each that reached the count of a failure has, all may go back:
/// to the order of the last snapshot, with the restarts that it lacks of those that the attempt
/// began with and one for each failure; and to the numbers that this replays to.
pub fn recoveries_may_come()
    ensures { (st : Setting) (failures : List FailureAt) (kept : List Entry) (resumed : Bool)
        (base : BaseView) (first : Cluster) (events : List Event) (c : Cluster)
        (orders : List (List Entry)) (missing : List Entry) →
        IsTraceOfCall st failures kept resumed base first events c → 0 < failures_in st c →
        ((a : ℕ) → a < st.machines → has_reached failures c a ≡ true →
        (c.machine a).failed ≡ true) →
        AreNextOrders st kept
        (fronts_in (going_on st base.numbers base.number) (recovers st base first) events)
        (recorded_in (going_on st base.numbers base.number) (recovers st base first) events)
        orders →
        filter is_restart (last_order kept orders) ++ missing ≡ filter is_restart
        c.base.order ++ restarts (failures_in st c) c.next →
        (to : BaseView) × (to.number ≡ c.coordinator.acknowledged)
        × (to.number ≡ base.number + length
        (recorded_in (going_on st base.numbers base.number) (recovers st base first) events))
        × (to.order ≡ last_order kept orders ++ missing)
        × HaveSameNumbers st.graph to.numbers (replay st.graph st.program to.order)
        × GoesBackTo (setting_behind (going_on st base.numbers base.number) events) c to }
{}

/// What a recovery takes away is what the merged logs have and the order lacks to which it goes
/// back.
pub fn losses_are_lacking()
    ensures { (st : Setting) (failures : List FailureAt) (kept : List Entry) (resumed : Bool)
        (base : BaseView) (first : Cluster) (events : List Event) (c : Cluster)
        (to : BaseView) (merged : List Entry) →
        IsTraceOfCall st failures kept resumed base first events c →
        GoesBackTo (setting_behind (going_on st base.numbers base.number) events) c to →
        IsMerge (all_logged (machine_logs st.machines c)) merged →
        TakesAway (setting_behind (going_on st base.numbers base.number) events) c to
        (filter (is_lacking to.order) merged) }
{}
