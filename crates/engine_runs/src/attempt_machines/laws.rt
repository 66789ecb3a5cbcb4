//! Laws of machines in the course of a call. Each is the contract of a function that does nothing.
ghost use Rattle.std.specs.Prelude.{◌≡◌, ◌⊎◌, ◌<◌, ℕ, Bool, Some, true, false, List, [], length};
ghost use Rattle.gl_base.specs.declared.jobs.FailureAt.{FailureAt};
ghost use Rattle.gl_base.specs.declared.snapshots.Base.{Base};
ghost use Rattle.cluster_laws.specs.cluster_model.Events.{Event, GoesBackTo, recovers};
ghost use Rattle.graph_core.specs.DataGraph.{DataGraph, size};
ghost use Rattle.placed_machines.specs.declared.placing.SavingRun.{SavingRun};
ghost use Rattle.update_api.specs.Updates.{Update};
ghost use Rattle.call_laws.specs.whole_calls.Following.{AreJobFailures, has_reached};
ghost use Rattle.engine_runs.specs.attempt_machines.Beginning.{AreAnyMachinesOf, BaseView, CallOpening, Cluster, TraceView, Engine, AnyMachine, GoesBackWith, IsTraceNow, IsEngineOf, IsAnyMachineOf, IsGoodBase, IsSavingRunOf, IsSnapSetting, RunsBy, Setting, StartsCall, StoreView, base_opened, cluster_before, newest_setting, opening_from, shared_of, store_from, ticket_above};

use update_api::Program;

/// Machines that are made for the first attempt from a good base begin the call that opens with it,
/// resumed or not, with whichever engine.
pub fn machines_start_calls<P: Program>()
    ensures { (engine : Engine) (st : Setting) (failures : List FailureAt) (resumed : Bool)
        (base : Base) (left : ℕ) (members : List (AnyMachine P)) →
        IsSnapSetting st → st.stored ≡ true → IsEngineOf engine st.engine →
        IsGoodBase (shared_of st failures) base →
        AreJobFailures st.machines failures → (resumed ≡ true) ⊎
        ((resumed ≡ false) × (base.order.items ≡ [])) →
        AreAnyMachinesOf P.meaning st (base_opened resumed base)
        (cluster_before st (ticket_above base.order.items) left base.length) members →
        StartsCall (IsAnyMachineOf P.meaning) members engine (Some (store_from st base))
        (ticket_above base.order.items) left failures st (opening_from st resumed base left) }
{}

/// Machines that are made for the base to which a course may go back go on from there, where each
/// machine that has reached the count of a failure has failed, with whichever engine. A setting in
/// which the call runs is one in which its newest attempt does, and its engine is the run's.
pub fn machines_go_back<P: Program>()
    ensures back { (engine : Engine) (old : TraceView (AnyMachine P)) (st : Setting)
        (o : CallOpening) (events : List Event) (c : Cluster) (base : BaseView) (store : StoreView)
        (members : List (AnyMachine P)) →
        IsTraceNow (IsAnyMachineOf P.meaning) old st o events c → st.stored ≡ true →
        IsEngineOf engine st.engine →
        GoesBackTo (newest_setting st o events) c base → c.stopped ≡ false →
        ((a : ℕ) → a < st.machines → has_reached old.failures c a ≡ true →
        (c.machine a).failed ≡ true) →
        AreAnyMachinesOf P.meaning (newest_setting st o events) base c members →
        size st.graph ≡ store.vertices → length st.graph.edges ≡ store.edges →
        base.number ≡ store.newest →
        (recovers (newest_setting st o events) base c).coordinator.store_end ≡ store.store_end →
        GoesBackWith (IsAnyMachineOf P.meaning) old members engine (Some store) st o events c base }
    ensures runs { (g : DataGraph) (program : Update) (owner : ℕ →
        ℕ) (colours : List ℕ) (run : SavingRun) (st : Setting)
        (o : CallOpening) (events : List Event) →
        IsSavingRunOf g program owner colours run st →
        IsSavingRunOf g program owner colours run (newest_setting st o events) }
    ensures engine { (engine : Engine) (colours : List ℕ) (st : Setting) →
        RunsBy engine colours st → IsEngineOf engine st.engine }
{}
