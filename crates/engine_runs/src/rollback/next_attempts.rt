//! The next attempt.
ghost use Rattle.std.specs.Prelude.{◌≡◌, ◌≤◌, ◌<◌, ◌+◌, ◌*◌, ◌^◌, ◌++◌, ℕ, List, filter, length, option_map, true, false, IfErr, IfOk, IfSome, IsTrue};
ghost use Rattle.std.specs.List.{AllByRecursion};
ghost use Rattle.engine_runs.specs.attempt_machines.Beginning.{if_taken};
ghost use Rattle.engine_runs.specs.rollback.Returning.{ArePlacesOf, BaseView, Begins, CallOpening, Cluster, RestartsFrom, HasFailures, Header, InEachTrace, IsBaseBehind, IsBaseFor, IsTraceNow, IsAnyMachineOf, IsKnownTrace, IsRunAt, GoBackErrorCause, Setting, StartsSaving, StoreView, is_restart, newest_setting, restarts};
ghost use Rattle.cluster_laws.specs.cluster_model.Events.{Event, GoesBackTo, failures_in};
ghost use Rattle.coordinator.specs.coord_core.Stores.{store_view};
ghost use Rattle.graph_core.specs.DataGraph.{IsDataGraph, size};
ghost use Rattle.gl_base.specs.declared.entries.Entry.{Entry};
ghost use Rattle.call_laws.specs.whole_calls.Lost.{TakesAway};
ghost use Rattle.placed_machines.specs.Beginning.{AreAnyMachinesOf, IsBaseOf};
ghost use Rattle.recovery.specs.GoodStores.{IsGoodStore};
ghost use Rattle.recovery.specs.Orders.{Shared};
ghost use Rattle.recovery.specs.Recovered.{IsHeaderOf};
ghost use Rattle.store.specs.snap_journal.Journals.{snapshots_in};
ghost use Rattle.store.specs.snap_journal.Last.{LastErrorCause};

use crate::attempt_machines::store_where;
use crate::placed::PlacedProgram;
use crate::rollback::losing::taken_away;
use crate::rollback::reading::{failures_now, serials};
use crate::rollback::rooms::store_behind;
use cluster_step::trace::{SavingMachine, Store, Trace};
use gl_base::{Base, Entry, NoMemory};
use gl_outside::Disk;
use graph_core::Graph;
use placed_machines::any_machine::AnyMachine;
use placed_machines::{Places, machines_of_attempt};
use recovery::recover;
use recovery::restarts::{Restarts, base_behind, missing_restarts};
use std::alloc::Global;
use store::snap_journal::{Journal, JournalFault};
use update_api::Program;

/// What the next attempt begins with: its machines and what its coordinator knows of the store,
/// where there is one; its order and the restarts of that; and the updates that the call has lost
/// then.
#[derive(Drop)]
pub(crate) struct NextAttempt<P: Program> {
    pub(crate) machines: Vec<AnyMachine<P>>,
    pub(crate) store: Option<Store>,
    pub(crate) order: Vec<Entry>,
    pub(crate) front: Vec<Entry>,
    pub(crate) lost: Vec<Entry>,
}

/// What all go back to: a base, the restarts behind the stored ones with which its order ends, and
/// what the coordinator is told of the store, where there is one.
#[derive(Drop)]
pub(crate) struct ReturnPoint {
    pub(crate) base: Base,
    pub(crate) missing: Vec<Entry>,
    pub(crate) store: Option<Store>,
}

/// The next attempt, from what the store has.
pub(crate) fn next_attempt<D: Disk, P: Program>(
    alloc: Global,
    trace: &Trace<AnyMachine<P>>,
    journal: &mut Journal<D>,
    placed: &PlacedProgram<'_, P>,
    restarts: &Restarts,
    lost: &[Entry],
) -> Result<NextAttempt<P>, JournalFault>
    requires places { ArePlacesOf placed.now.graph.now
        (length trace.now.now.machines.items) placed.now.places.now }
    requires header { IsHeaderOf placed.now.graph.now journal.old.header }
    requires first { Begins restarts.now.stored.items restarts.now.front.items }
    ensures start { IfOk result (λ next. (st : Setting) × (base : BaseView) × (before : Cluster) ×
        StartsSaving (IsAnyMachineOf P.meaning) next.machines.items placed.now.places.now.run.engine
        (option_map store_view next.store) trace.now.now.next trace.now.now.left st base before) }
    ensures many { IfOk result (λ next.
        length next.machines.items ≡ length trace.now.now.machines.items) }
    ensures newest { IfOk result (λ next. IfSome next.store (λ s. s.newest + 1 < 2 ^ 32)) }
    ensures short { IfOk result (λ next. IfSome next.store (λ s. s.length < 2 ^ 32)) }
    ensures first { IfOk result (λ next. Begins restarts.now.stored.items next.front.items) }
    ensures lost { IfOk result (λ next. Begins lost.now next.lost.items) }
    ensures back { IsTrue D.observable →
        (start : List (List ℕ)) (order : List Entry) (st : Setting) (o : CallOpening) →
        IsRunAt placed.now.graph.now (P.meaning placed.now.program) placed.now.places.now st →
        (known : IsKnownTrace (IsAnyMachineOf P.meaning) trace.now journal.old.header start
        (snapshots_in D.past journal.old) lost.now restarts.now.stored.items
        restarts.now.front.items order st o) → HasFailures trace.now st known.was.cluster →
        IfOk result (λ next.
        RestartsFrom P.meaning trace.now next.machines.items placed.now.places.now.run.engine
        (option_map store_view next.store) next.order.items lost.now next.lost.items
        restarts.now.front.items next.front.items st o known.was.events known.was.cluster) }
    ensures refused { IfErr result
        (GoBackErrorCause (IsTrue D.observable)
        (InEachTrace (IsAnyMachineOf P.meaning) trace.now (λ st o events c.
        st.stored ≡ true → 2 ^ 32 ≤ c.coordinator.store_end + 16 * failures_in st c))
        journal.old.failed journal.new.failed (D.faults journal.old.disk)
        (D.faults journal.new.disk)) }
    ensures well { IfOk result (λ next. (journal.old.failed ≡ false) ×
        (journal.new.failed ≡ false)) }
    ensures past { IsTrue D.observable → D.past journal.new.disk ≡ D.past journal.old.disk }
    ensures kept { journal.new ≡ record journal.old {
      disk = journal.new.disk;
      failed = journal.new.failed;
    } }
    ensures same { D.same journal.old.disk journal.new.disk }
    ensures later { D.faults journal.old.disk ≤ D.faults journal.new.disk }
{
    let failures = failures_now(alloc, trace)?;
    let missing = missing_restarts(
        alloc,
        &restarts.stored,
        &restarts.front,
        failures,
        trace.next(),
    )?;
    let base = match base_with(alloc, journal, placed.graph, &placed.program, &missing) {
        Ok(base) => base,
        Err(why) => {
            drop(missing);
            return Err(why);
        }
    };
    let store = match store_behind(trace, placed.graph, base.number, failures) {
        Ok(store) => store,
        Err(full) => {
            drop(base);
            drop(missing);
            return Err(full);
        }
    };
    let back = ReturnPoint {
        base,
        missing,
        store: store_where(placed.places.run.window, store),
    };
    let Ok(next) = attempt_from(alloc, trace, placed, restarts, lost, back) else {
        return Err(JournalFault::NoMemory);
    };
    Ok(next)
}

/// The base that the store has, with these entries behind its order.
fn base_with<D: Disk, P: Program>(
    alloc: Global,
    journal: &mut Journal<D>,
    graph: &Graph,
    program: &P,
    missing: &[Entry],
) -> Result<Base, JournalFault>
    requires { IsHeaderOf graph.now journal.old.header }
    ensures numbers { IfOk result (IsBaseFor graph.now) }
    ensures number { IfOk result (λ base. base.number + 1 < 2 ^ 32) }
    ensures base { IsTrue D.observable → (shared : Shared) → shared.graph ≡ graph.now →
        shared.program ≡ P.meaning program.now →
        IsGoodStore shared journal.old.header (snapshots_in D.past journal.old) →
        IfOk result (IsBaseBehind shared journal.old.header
        (snapshots_in D.past journal.old) missing.now) }
    ensures refused { IfErr result
        (LastErrorCause (IsTrue D.observable) journal.old.failed journal.new.failed
        (D.faults journal.old.disk) (D.faults journal.new.disk)) }
    ensures well { IfOk result (λ base. (journal.old.failed ≡ false) ×
        (journal.new.failed ≡ false)) }
    ensures past { IsTrue D.observable → D.past journal.new.disk ≡ D.past journal.old.disk }
    ensures kept { journal.new ≡ record journal.old {
      disk = journal.new.disk;
      failed = journal.new.failed;
    } }
    ensures same { D.same journal.old.disk journal.new.disk }
    ensures later { D.faults journal.old.disk ≤ D.faults journal.new.disk }
{
    let base = recover(alloc, journal, graph, program)?;
    let base = base_behind(base, missing)?;
    Ok(base)
}

/// The next attempt, from what all go back to.
pub(crate) fn attempt_from<P: Program>(
    alloc: Global,
    trace: &Trace<AnyMachine<P>>,
    placed: &PlacedProgram<'_, P>,
    restarts: &Restarts,
    lost: &[Entry],
    back: ReturnPoint,
) -> Result<NextAttempt<P>, NoMemory>
    requires places { ArePlacesOf placed.now.graph.now
        (length trace.now.now.machines.items) placed.now.places.now }
    requires base { IsBaseFor placed.now.graph.now back.base }
    requires graph { IsDataGraph placed.now.graph.now }
    ensures lost { IfOk result (λ next. (gone : List Entry) × (next.lost.items ≡ lost.now ++ gone) ×
        InEachTrace (IsAnyMachineOf P.meaning) trace.now (λ st o events c. (to : BaseView) →
        to.order ≡ back.base.order.items →
        GoesBackTo (newest_setting st o events) c to →
        TakesAway (newest_setting st o events) c to gone)) }
    ensures front { IfOk result (λ next.
        next.front.items ≡ restarts.now.stored.items ++ back.missing.items) }
    ensures order { IfOk result (λ next. next.order.items ≡ back.base.order.items) }
    ensures store { IfOk result (λ next. next.store ≡ back.store) }
    ensures many { IfOk result (λ next.
        length next.machines.items ≡ length trace.now.now.machines.items) }
    ensures stand { IfOk result (λ next.
        InEachTrace (IsAnyMachineOf P.meaning) trace.now (λ st o events c. (to : BaseView) →
        IsRunAt placed.now.graph.now (P.meaning placed.now.program) placed.now.places.now
        (newest_setting st o events) →
        IsBaseOf (newest_setting st o events) back.base to →
        AreAnyMachinesOf P.meaning (newest_setting st o events) to c next.machines.items)) }
    ensures start { IfOk result (λ next. (store : StoreView) →
        store.vertices ≡ size placed.now.graph.now →
        store.edges ≡ length placed.now.graph.now.edges → store.newest ≡ back.base.number →
        (st : Setting) × (to : BaseView) × (before : Cluster) ×
        StartsSaving (IsAnyMachineOf P.meaning) next.machines.items placed.now.places.now.run.engine
        (if_taken placed.now.places.now.run.window store) trace.now.now.next trace.now.now.left
        st to before) }
{
    let ReturnPoint {
        base,
        missing,
        store,
    } = back;
    let Ok(lost) = lost_behind(alloc, trace, lost, &base.order) else {
        drop(missing);
        drop(base);
        return Err(NoMemory);
    };
    let Ok(front) = list_behind(alloc, &restarts.stored, &missing) else {
        drop(missing);
        drop(lost);
        drop(base);
        return Err(NoMemory);
    };
    drop(missing);
    let Ok(machines) = machines_from(
        alloc,
        trace,
        placed.graph,
        placed.program,
        &base,
        placed.places,
    ) else {
        drop(front);
        drop(lost);
        drop(base);
        return Err(NoMemory);
    };
    Ok(NextAttempt {
        machines,
        store,
        order: base.order,
        front,
        lost,
    })
}

/// The updates that the call has lost where all go back to this order: those that it had lost
/// before, and behind them what that takes away.
fn lost_behind<M: SavingMachine>(
    alloc: Global,
    trace: &Trace<M>,
    lost: &[Entry],
    order: &[Entry],
) -> Result<Vec<Entry>, NoMemory>
    ensures { IfOk result (λ all. (gone : List Entry) × (all.items ≡ lost.now ++ gone) ×
        InEachTrace M.represents trace.now (λ st o events c. (to : BaseView) →
        to.order ≡ order.now →
        GoesBackTo (newest_setting st o events) c to →
        TakesAway (newest_setting st o events) c to gone)) }
{
    let gone = taken_away(alloc, trace, order)?;
    let lost = list_behind(alloc, lost, &gone)?;
    Ok(lost)
}

/// The machines of the next attempt from this base.
fn machines_from<P: Program>(
    alloc: Global,
    trace: &Trace<AnyMachine<P>>,
    graph: &Graph,
    program: P,
    base: &Base,
    places: &Places,
) -> Result<Vec<AnyMachine<P>>, NoMemory>
    requires places { ArePlacesOf graph.now (length trace.now.now.machines.items) places.now }
    requires base { IsBaseFor graph.now base.now }
    requires graph { IsDataGraph graph.now }
    ensures many { IfOk result (λ machines.
        length machines.items ≡ length trace.now.now.machines.items) }
    ensures stand { IfOk result (λ machines.
        InEachTrace (IsAnyMachineOf P.meaning) trace.now (λ st o events c. (to : BaseView) →
        IsRunAt graph.now (P.meaning program) places.now (newest_setting st o events) →
        IsBaseOf (newest_setting st o events) base.now to →
        AreAnyMachinesOf P.meaning (newest_setting st o events) to c machines.items)) }
    ensures start { IfOk result (λ machines. (store : StoreView) → store.vertices ≡ size graph.now →
        store.edges ≡ length graph.now.edges → store.newest ≡ base.now.number →
        (st : Setting) × (to : BaseView) × (before : Cluster) ×
        StartsSaving (IsAnyMachineOf P.meaning) machines.items places.now.run.engine
        (if_taken places.now.run.window store) trace.now.now.next trace.now.now.left
        st to before) }
{
    let serials = serials(alloc, trace)?;
    let machines = machines_of_attempt(alloc, graph, program, base, places, &serials)?;
    Ok(machines)
}

/// The one list with the other behind it.
fn list_behind(alloc: Global, first: &[Entry], more: &[Entry]) -> Result<Vec<Entry>, NoMemory>
    ensures { IfOk result (λ all. all.items ≡ first.now ++ more.now) }
{
    let mut all = Vec::from_slice(alloc, first)?;
    all.extend_from_slice(more)?;
    Ok(all)
}
