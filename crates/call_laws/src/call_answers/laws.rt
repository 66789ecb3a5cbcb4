//! Laws of the lists that a run leaves. Each is the contract of a function that does nothing.
ghost use Rattle.std.specs.List.{AllByRecursion};
ghost use Rattle.std.specs.Prelude.{Bool, List, false, length, sum_by, true, ℕ, ◌+◌, ◌/◌, ◌<◌, ◌≡◌, ◌≤◌};
ghost use Rattle.gl_base.specs.Lists.{AreEach};
ghost use Rattle.gl_base.specs.declared.entries.Entry.{Entry};
ghost use Rattle.gl_base.specs.declared.jobs.FailureAt.{FailureAt};
ghost use Rattle.call_laws.specs.attempts.EngineCalls.{EngineCall, IsEngineCall, call_order, done_of, lost_of, made_of};
ghost use Rattle.call_laws.specs.attempts.Stores.{snapshots_of};
ghost use Rattle.call_laws.specs.call_answers.Answers.{IsRunWithFailures, KeepsToWindow, RunLists, Shared, reached_places};
ghost use Rattle.call_laws.specs.call_answers.Traces.{ListsOfTrace};
ghost use Rattle.call_laws.specs.call_answers.Ends.{FinishesRun, SpendsRun};
ghost use Rattle.cluster_laws.specs.cluster_core.Recovering.{going_on};
ghost use Rattle.cluster_laws.specs.cluster_core.Replays.{IsTask};
ghost use Rattle.cluster_laws.specs.cluster_core.Settings.{Setting};
ghost use Rattle.cluster_laws.specs.cluster_model.Clusters.{BaseView, Cluster};
ghost use Rattle.cluster_laws.specs.cluster_model.Events.{Event, recovers};
ghost use Rattle.cluster_laws.specs.cluster_model.Working.{half_window};
ghost use Rattle.cluster_laws.specs.cluster_runs.Recorded.{shared_of};
ghost use Rattle.whole_laws.specs.cluster_records.Few.{under_way};
ghost use Rattle.whole_laws.specs.cluster_whole.Views.{world_of};
ghost use Rattle.graph_core.specs.DataGraph.{size};
ghost use Rattle.cluster_laws.specs.merged_logs.Merges.{IsByMachineBelow};
ghost use Rattle.call_laws.specs.whole_calls.Called.{IsCallOf};
ghost use Rattle.call_laws.specs.whole_calls.Following.{has_reached};
ghost use Rattle.call_laws.specs.whole_calls.Opened.{IsTraceOfCall};
ghost use Rattle.call_laws.specs.whole_calls.Saved.{AreNextOrders, AreSnapshotsOf, fronts_in, recorded_in};
ghost use Rattle.call_laws.specs.whole_calls.Telling.{HasSavedTheEnd, CallReport};

/// The lists of a call of attempts are those of a run with failures. The failures of its last
/// attempt that were reached go unanswered.
pub fn calls_are_runs()
    ensures { (shared : Shared) (machines : ℕ) (call : EngineCall) (lists : RunLists) →
        IsEngineCall shared call →
        lists.order ≡ call_order call → lists.lost ≡ lost_of call →
        AreEach machines (λ m count. count ≡ done_of call m) lists.done →
        lists.fired ≡ reached_places (done_of call) 0 shared.failures →
        AllByRecursion (IsByMachineBelow machines) (made_of call) →
        IsRunWithFailures shared machines call.base call.resumed call.last.struck lists }
{}

/// The lists of a cluster to which events led, from the opening of a call on, are those of a run
/// with failures; and where snapshots are taken they keep to the window, for the orders of the
/// snapshots that were acknowledged. Where the waves have shown the end and no snapshot is due, the
/// run is finished; and where no ticket is left and no failure was reached, it is spent at each
/// task. There is a call of attempts of which all of this holds at once.
pub fn traces_are_runs()
    ensures { (st : Setting) (failures : List FailureAt) (kept : List Entry) (resumed : Bool)
        (base : BaseView) (first : Cluster) (events : List Event) (c : Cluster)
        (lists : RunLists) → IsTraceOfCall st failures kept resumed base first events c →
        ListsOfTrace st failures base first events c lists →
        (call : EngineCall)
        × IsCallOf st failures kept resumed c call
        × IsRunWithFailures (shared_of st failures) st.machines kept resumed call.last.struck lists
        × (lists.order ≡ call_order call)
        × (st.stored ≡ true → KeepsToWindow st.window kept (snapshots_of call) lists)
        × AreSnapshotsOf st base.number kept
        (recorded_in (going_on st base.numbers base.number) (recovers st base first) events)
        (snapshots_of call)
        × AreNextOrders st kept
        (fronts_in (going_on st base.numbers base.number) (recovers st base first) events)
        (recorded_in (going_on st base.numbers base.number) (recovers st base first) events)
        (snapshots_of call)
        × (0 < half_window st →
        length (snapshots_of call) + under_way c ≤ first.left / half_window st + 1)
        × (sum_by (λ count. count) lists.done + c.left ≡ first.left)
        × CallReport st first.left c call
        × (st.stored ≡ true → HasSavedTheEnd st c.coordinator →
        FinishesRun true (shared_of st failures) kept (snapshots_of call) call.last.struck lists)
        × ((left : ℕ) → c.left ≡ 0 →
        ((a : ℕ) → a < st.machines → has_reached failures c a ≡ false) → left < size st.graph →
        IsTask st (world_of c) left →
        SpendsRun (shared_of st failures) first.left left call.last.struck lists) }
{}
