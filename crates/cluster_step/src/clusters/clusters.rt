//! A cluster that takes snapshots.
ghost use Rattle.std.specs.Prelude.{◌≡◌, ◌+◌, ◌^◌, ◌<◌, ◌≤◌, ◌↔◌, false, true, length, option_map, slice_get, slice_index_or, IfOk, IfSome, IfNone, IsErrOf, IsTrue, OnOk, OnErr, Some};
ghost use Rattle.std.specs.List.{AllByRecursion};
ghost use Rattle.call_laws.specs.whole_calls.Telling.{HasNoWordAt};
ghost use Rattle.cluster_laws.specs.cluster_core.Recovering.{going_on};
ghost use Rattle.whole_laws.specs.cluster_ending.Ends.{HasFinishedOrder};
ghost use Rattle.cluster_laws.specs.cluster_model.Events.{HasNext, recovers};
ghost use Rattle.cluster_laws.specs.cluster_model.Leading.{HasSeenTheEnd};
ghost use Rattle.coordinator.specs.coord_core.Calls.{IsDueOf};
ghost use Rattle.coordinator.specs.coord_core.Stores.{store_view};
ghost use Rattle.cluster_step.specs.clusters.AtOnce.{CanNotTakePlaceAtOnce, CanTakePlaceAtOnce, TakesPlaceAtOnce};
ghost use Rattle.cluster_step.specs.clusters.Clusters.{BaseView, Cluster, GoesOnWith, IsSavingClusterOf, InEachCluster, Setting, StandsForSaving, StandsForSameSaving, StartsSaving};
ghost use Rattle.cluster_step.specs.clusters.Cuts.{IsSnapshotCut, RecordsCut};
ghost use Rattle.cluster_step.specs.clusters.Events.{CanTakePlace, CanNotTakePlace, IsNoStop, IsReadyToAcknowledge, TakesPlace, NamesItsMachines};
ghost use Rattle.cluster_step.specs.clusters.Ordered.{HasOneOrder};
ghost use Rattle.coordinator.specs.machine_api.Promises.{HasFirst};

use crate::clusters::events::{Event, Lead, Local};
use crate::clusters::parts::{Parts, first_parts};
use coordinator::coord_core::{Coordinator, Due, Engine, Store};
use coordinator::machine_api::SavingMachine;
use gl_base::{Entry, MachineNo, NoMemory, Record, Refused, ScopeId, Vertex};
use std::alloc::Global;
use std::marker::Model;

/// A cluster of machines that take snapshots, with locks or by colours, and its coordinator.
/// Contracts see its parts. Whatever happens in it, each acknowledged snapshot is a consistent cut,
/// machines fail and all go back among it.
#[derive(Drop)]
pub struct SnapCluster<M: SavingMachine> {
    pub(crate) parts: Parts<M>,
}

impl<M: SavingMachine> Model for SnapCluster<M> {
    ghost use Rattle.cluster_step.specs.clusters.Clusters.{Parts, StandsForSaving};

    ghost Value = { Parts M };

    ghost view = { λ c. c.parts };

    ghost invariant = { λ c. StandsForSaving M.represents c.parts };
}

impl<M: SavingMachine> SnapCluster<M> {
    /// A cluster of machines that begin an attempt, each at its place, with this engine, and with
    /// this store or without one. The first update gets the ticket `next`, and there are `left` of
    /// them. Of the base only what the machines have of it is asked: it may be one that another
    /// hand made.
    pub fn new(
        alloc: Global,
        machines: Vec<M>,
        engine: Engine,
        store: Option<Store>,
        next: u64,
        left: u64,
    ) -> Result<SnapCluster<M>, NoMemory>
        requires start { (st : Setting) × (base : BaseView) × (before : Cluster) ×
            StartsSaving M.represents machines.items engine (option_map store_view store)
            next left st base before }
        requires many { length machines.items < 65535 }
        requires few { next + left < 2 ^ 64 }
        requires newest { IfSome store (λ s. s.newest + 1 < 2 ^ 32) }
        requires length { IfSome store (λ s. s.length < 2 ^ 32) }
        // It is what the law begins with, whatever was before.
        ensures began { IfOk result (λ c. (st : Setting) (base : BaseView) (before : Cluster) →
            StartsSaving M.represents machines.items engine (option_map store_view store)
            next left st base before →
            IsSavingClusterOf M.represents (going_on st base.numbers base.number) c
            (recovers st base before)) }
        ensures machines { IfOk result (λ c. c.machines.items ≡ machines.items) }
        ensures runs { IfOk result (λ c. c.stopped ≡ false) }
    {
        let parts = first_parts(alloc, machines, engine, store, next, left)?;
        Ok(SnapCluster { parts })
    }

    /// The event happens, where it may happen now.
    pub fn apply(&mut self, event: Event) -> Result<(), Refused>
        requires { NamesItsMachines (length self.old.machines.items) event }
        ensures made { OnOk result (TakesPlace M.represents self.old event self.new) }
        ensures not_now { IsErrOf result Refused.NotNow →
            CanNotTakePlace M.represents self.old event }
        ensures no_memory { IsErrOf result Refused.NoMemory →
            CanTakePlace M.represents self.old event }
        ensures unchanged { OnErr result (StandsForSameSaving M.represents self.old self.new) }
        ensures machines { length self.new.machines.items ≡ length self.old.machines.items }
        ensures stopped { IsNoStop event → self.new.stopped ≡ self.old.stopped }
    {
        self.parts.make(event)
    }

    /// A vertex of the machine is updated at once, where the one that the machine looks at may be
    /// now: a scope of it is admitted, each of its locks is granted in turn, and its update is
    /// made, all on this machine. Of the vertices that may be admitted the machine looks at one of
    /// its choice. Where scopes take no locks none is.
    pub fn update_at_once(&mut self, at: MachineNo) -> Result<Vertex, Refused>
        requires { at.0 < length self.old.machines.items }
        ensures made { IfOk result (λ v. TakesPlaceAtOnce M.represents self.old at.0 v.0 self.new) }
        ensures not_now { IsErrOf result Refused.NotNow →
            CanNotTakePlaceAtOnce M.represents self.old at }
        ensures no_memory { IsErrOf result Refused.NoMemory →
            CanTakePlaceAtOnce M.represents self.old at.0 }
        ensures unchanged { OnErr result (StandsForSameSaving M.represents self.old self.new) }
        ensures machines { length self.new.machines.items ≡ length self.old.machines.items }
        ensures stopped { self.new.stopped ≡ self.old.stopped }
    {
        self.parts.update_at_once(at)
    }

    /// All machines go back to a base: the cluster goes on with these machines, which begin an
    /// attempt from it, and with nothing on its way. Its engine is the same, and tickets go on. Of
    /// the base only what the machines have of it is asked: it may be one that another hand made.
    /// Where the law's Recover may occur, and these machines are what that makes of the machines,
    /// the cluster goes on as the law says.
    pub fn recover(
        &mut self,
        alloc: Global,
        machines: Vec<M>,
        engine: Engine,
        store: Option<Store>,
    ) -> Result<(), NoMemory>
        requires again { (st : Setting) × (base : BaseView) × (before : Cluster) ×
            StartsSaving M.represents machines.items engine (option_map store_view store)
            self.old.next self.old.left st base before }
        requires many { length machines.items ≡ length self.old.machines.items }
        requires newest { IfSome store (λ s. s.newest + 1 < 2 ^ 32) }
        requires length { IfSome store (λ s. s.length < 2 ^ 32) }
        ensures recovered { OnOk result ((st : Setting) (c : Cluster) (base : BaseView) →
            GoesOnWith M.represents self.old machines.items engine
            (option_map store_view store) st c base →
            IsSavingClusterOf M.represents (going_on st base.numbers base.number)
            self.new (recovers st base c)) }
        ensures unchanged { OnErr result (self.new ≡ self.old) }
        ensures machines { length self.new.machines.items ≡ length self.old.machines.items }
        ensures runs { OnOk result (self.new.stopped ≡ false) }
    {
        let parts = first_parts(
            alloc,
            machines,
            engine,
            store,
            self.parts.next,
            self.parts.left,
        )?;
        self.parts = parts;
        Ok(())
    }

    /// The record of the snapshot under way, for a store. It acknowledges nothing: `acknowledge`
    /// does, for which there is room from then on.
    /// `NotNow` comes exactly where the event of `Lead::Record` may not happen. What the record has is a consistent cut.
    pub fn record(&mut self, alloc: Global) -> Result<Record, Refused>
        ensures cut { IfOk result (λ made.
            InEachCluster M.represents self.old (λ st c. RecordsCut st c made)) }
        ensures due { OnOk result (CanTakePlace M.represents self.old (Event.Lead Lead.Record)) }
        ensures not_now { IsErrOf result Refused.NotNow →
            CanNotTakePlace M.represents self.old (Event.Lead Lead.Record) }
        ensures no_memory { IsErrOf result Refused.NoMemory →
            CanTakePlace M.represents self.old (Event.Lead Lead.Record) }
        ensures same { StandsForSameSaving M.represents self.old self.new }
        ensures machines { length self.new.machines.items ≡ length self.old.machines.items }
        ensures stopped { self.new.stopped ≡ self.old.stopped }
        ensures ready { IfOk result (λ made. IsReadyToAcknowledge self.new made.number) }
    {
        self.parts.record(alloc)
    }

    /// The snapshot of this number, whose record was made, is acknowledged: the event of
    /// `Lead::Record` happens. It takes no memory.
    pub fn acknowledge(&mut self, number: u32)
        requires { IsReadyToAcknowledge self.old number }
        ensures made { TakesPlace M.represents self.old (Event.Lead Lead.Record) self.new }
        ensures machines { length self.new.machines.items ≡ length self.old.machines.items }
        ensures stopped { self.new.stopped ≡ self.old.stopped }
    {
        self.parts.recorded(number);
    }

    /// How many snapshots are stored, where they are taken: the number of the newest acknowledged
    /// one. Each that was acknowledged in this attempt is a consistent cut: its numbers are the
    /// replay of a valid order on the undivided graph.
    pub fn stored(&self) -> u32
        ensures number { InEachCluster M.represents self.now (λ st c. st.stored ≡ true →
            result ≡ c.coordinator.acknowledged) }
        ensures cuts { InEachCluster M.represents self.now (λ st c.
            AllByRecursion (IsSnapshotCut st c) c.coordinator.snapshots) }
        // Some cluster of the law is this one, so that what is said of all of them says something.
        ensures cluster { StandsForSaving M.represents self.now }
    {
        self.parts.coordinator.stored()
    }

    /// What is due: a record, the next snapshot, the end, a step, or a wave. Where it is the end,
    /// the order of the updates leaves no task.
    pub fn due(&self) -> Due
        ensures due { IsDueOf self.now.coordinator result }
        ensures ended { result ≡ Due.Ended → InEachCluster M.represents self.now HasFinishedOrder }
    {
        self.parts.coordinator.due()
    }

    /// Whether the waves have shown the coordinator that nothing is left to do.
    pub fn has_seen_the_end(&self) -> bool
        ensures { IsTrue result →
            InEachCluster M.represents self.now (λ st c. HasSeenTheEnd c.coordinator) }
    {
        self.parts.coordinator.has_seen_the_end()
    }

    /// The ticket of the next update.
    pub fn next(&self) -> u64
        ensures { InEachCluster M.represents self.now (λ st c. result ≡ c.next) }
    {
        self.parts.next
    }

    /// How many tickets are left.
    pub fn left(&self) -> u64
        ensures { InEachCluster M.represents self.now (λ st c. result ≡ c.left) }
    {
        self.parts.left
    }

    /// Whether the run has ended: nothing happens any more.
    pub fn is_stopped(&self) -> bool
        ensures { result ≡ self.now.stopped }
    {
        self.parts.stopped
    }

    /// How many machines there are.
    pub fn machines(&self) -> usize
        ensures count { result ≡ length self.now.machines.items }
        ensures small { result < 65535 }
    {
        self.parts.machines.len()
    }

    /// A machine, to be read.
    pub fn machine(&self, m: MachineNo) -> &M
        requires { m.0 < length self.now.machines.items }
        ensures stands { slice_get self.now.machines.items m.0 ≡ Some result.now }
        ensures is { InEachCluster M.represents self.now (λ st c.
            M.represents st m.0 (c.machine m.0) result.now) }
        ensures cluster { StandsForSaving M.represents self.now }
    {
        &self.parts.machines[m.0 as usize]
    }

    /// The updates that a machine made in this attempt. All machines' are one order, whose replay
    /// on the undivided graph gives the numbers that the owners of the vertices have.
    pub fn log(&self, m: MachineNo) -> &[Entry]
        requires { m.0 < length self.now.machines.items }
        ensures log { InEachCluster M.represents self.now (λ st c.
            result.now ≡ (c.machine m.0).part.log) }
        ensures order { InEachCluster M.represents self.now HasOneOrder }
    {
        self.parts.machines[m.0 as usize].log()
    }

    /// Whether the machine has failed in this attempt.
    pub fn has_failed(&self, m: MachineNo) -> bool
        requires { m.0 < length self.now.machines.items }
        ensures { InEachCluster M.represents self.now (λ st c. result ≡ (c.machine m.0).failed) }
    {
        self.parts.has_failed(m)
    }

    /// The coordinator, to be read.
    pub fn coordinator(&self) -> &Coordinator
        ensures { result.now ≡ self.now.coordinator }
    {
        &self.parts.coordinator
    }

    /// A lock that may be granted at the machine; `None` exactly where none may be.
    pub fn next_grant(&mut self, at: MachineNo) -> Option<Vertex>
        requires { at.0 < length self.old.machines.items }
        ensures some { IfSome result (λ x.
            CanTakePlace M.represents self.old (Event.Local (Local.Grant at x))) }
        ensures none { IfNone result ((x : Vertex) →
            CanNotTakePlace M.represents self.old (Event.Local (Local.Grant at x))) }
        ensures same { StandsForSameSaving M.represents self.old self.new }
        ensures machines { length self.new.machines.items ≡ length self.old.machines.items }
        ensures stopped { self.new.stopped ≡ self.old.stopped }
    {
        self.parts.next_grant(at)
    }

    /// A scope of the machine whose update may be made; `None` exactly where there is none.
    pub fn next_update(&self, at: MachineNo) -> Option<ScopeId>
        requires { at.0 < length self.now.machines.items }
        ensures home { IfSome result (λ s. s.home ≡ at) }
        ensures some { IfSome result (λ s.
            CanTakePlace M.represents self.now (Event.Local (Local.Update s))) }
        ensures none { IfNone result ((s : ScopeId) → s.home ≡ at →
            CanNotTakePlace M.represents self.now (Event.Local (Local.Update s))) }
    {
        self.parts.next_update(at)
    }

    /// A scope of the machine whose snapshot update may be made; `None` exactly where there is
    /// none.
    pub fn next_mark(&self, at: MachineNo) -> Option<ScopeId>
        requires { at.0 < length self.now.machines.items }
        ensures home { IfSome result (λ s. s.home ≡ at) }
        ensures some { IfSome result (λ s.
            CanTakePlace M.represents self.now (Event.Local (Local.Mark s))) }
        ensures none { IfNone result ((s : ScopeId) → s.home ≡ at →
            CanNotTakePlace M.represents self.now (Event.Local (Local.Mark s))) }
    {
        self.parts.next_mark(at)
    }

    /// Whether the machine may put its section out now.
    pub fn has_section(&mut self, at: MachineNo) -> bool
        requires { at.0 < length self.old.machines.items }
        ensures yes { IsTrue result →
            CanTakePlace M.represents self.old (Event.Local (Local.Section at)) }
        ensures no { result ≡ false →
            CanNotTakePlace M.represents self.old (Event.Local (Local.Section at)) }
        ensures same { StandsForSameSaving M.represents self.old self.new }
        ensures machines { length self.new.machines.items ≡ length self.old.machines.items }
    {
        self.parts.has_section(at)
    }

    /// Whether a message is on the link from the one machine to the other.
    pub fn has_message(&self, from: MachineNo, to: MachineNo) -> bool
        requires from { from.0 < length self.now.machines.items }
        requires to { to.0 < length self.now.machines.items }
        ensures { InEachCluster M.represents self.now (λ st c. IsTrue result ↔
            HasFirst (c.link from.0 to.0)) }
    {
        self.parts.links.has_message(from, to)
    }

    /// Whether word of the coordinator is on the link to the machine.
    pub fn has_call(&self, to: MachineNo) -> bool
        requires { to.0 < length self.now.machines.items }
        ensures { InEachCluster M.represents self.now (λ st c. IsTrue result ↔
            HasNext (c.calls to.0)) }
    {
        self.parts.links.has_message(self.parts.lead(), to)
    }

    /// Whether word of the machine is on the link to the coordinator.
    pub fn has_report(&self, from: MachineNo) -> bool
        requires { from.0 < length self.now.machines.items }
        ensures { InEachCluster M.represents self.now (λ st c. IsTrue result ↔
            HasNext (c.reports from.0)) }
    {
        self.parts.links.has_message(from, self.parts.lead())
    }

    /// Whether word waits at the coordinator for the machine.
    pub fn call_waits(&self, to: MachineNo) -> bool
        requires { to.0 < length self.now.machines.items }
        ensures { InEachCluster M.represents self.now (λ st c. IsTrue result ↔
            HasNext (c.coordinator.out to.0)) }
    {
        self.parts.coordinator.waits(to)
    }

    /// Whether word is on its way between the coordinator and the machine: it waits at one of them,
    /// or is on a link.
    pub fn has_word(&self, at: MachineNo) -> bool
        requires { at.0 < length self.now.machines.items }
        ensures { InEachCluster M.represents self.now (λ st c. (result ≡ false) ↔
            HasNoWordAt c at.0) }
    {
        let waits = self.call_waits(at);
        let called = self.has_call(at);
        let reports = self.machine(at).has_report();
        let reported = self.has_report(at);
        waits | called | reports | reported
    }
}
