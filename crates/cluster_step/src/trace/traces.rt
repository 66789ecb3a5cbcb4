//! The course of a call.
ghost use Rattle.std.specs.Prelude.{[], ◌≡◌, ◌+◌, ◌^◌, ◌<◌, ◌≤◌, ◌↔◌, ℕ, length, option_map, slice_index_or, false, true, IfNone, IfOk, IfSome, IsErrOf, IsTrue, OnErr, OnOk};
ghost use Rattle.call_laws.specs.attempts.EngineCalls.{done_of, first_ticket, made_of};
ghost use Rattle.cluster_step.specs.trace.AtOnce.{CanHappenAtOnceInCall, IsLocalUpdateDisabled, HappensAtOnceInCall};
ghost use Rattle.cluster_step.specs.trace.Calls.{EndsWhereUnsaved, HasCall, HasEndedCall, HasTaskLeft, LeavesNothing, OfTheCall};
ghost use Rattle.cluster_step.specs.trace.Traces.{BaseView, CallOpening, Cluster, TraceGoesOn, HasTrace, HasGoneBack, InEachTrace, IsTraceNow, IsSameAttempt, OpensCall, Setting, StartsSaving, as_since, first_cluster, newest_setting};
ghost use Rattle.cluster_step.specs.trace.Events.{CanHappenInCall, IsEventDisabled, HappensInCall, IsHeldBack, GoesOnBy, StaysThere};
ghost use Rattle.cluster_laws.specs.cluster_core.Replays.{entries_of};
ghost use Rattle.cluster_laws.specs.cluster_model.Machines.{completed};
ghost use Rattle.coordinator.specs.coord_core.Calls.{IsDueOf, IsRecordFor};
ghost use Rattle.coordinator.specs.coord_core.Stores.{store_view};
ghost use Rattle.cluster_step.specs.clusters.Cuts.{snapshot_due};
ghost use Rattle.cluster_step.specs.clusters.Events.{CanNotTakePlace, CanTakePlace, IsReadyToAcknowledge, NamesItsMachines};
ghost use Rattle.call_laws.specs.whole_calls.Following.{has_reached};
ghost use Rattle.call_laws.specs.whole_calls.Saved.{MayFollow};
ghost use Rattle.call_laws.specs.whole_calls.Telling.{HasNoWordAt};

use crate::clusters::{
    Coordinator, Due, Engine, Event, Lead, Local, SavingMachine, SnapCluster, Store,
};
use crate::trace::failing::{is_count_reached, watched};
use gl_base::{Entry, FailureAt, MachineNo, NoMemory, Record, Refused, ScopeId, Vertex};
use std::alloc::Global;
use std::marker::Model;
use std::snapshot::Snapshot;

/// A cluster in the course of a call that runs a job. Contracts see how it began, the failures that
/// the job orders, how many updates each machine had completed as the newest attempt began, and the
/// cluster as it was remembered and as it is now. Whatever happens in it follows the job: a machine
/// that has reached the count of a failure makes no update and hears nothing of the coordinator
/// until it fails, and no other machine fails. So what has happened since an opening of the law
/// makes a call, of which all laws of calls hold. Each base may be one that another hand made: then
/// the law may have no such opening, and what is said of each course says nothing.
#[derive(Drop)]
pub struct Trace<M: SavingMachine> {
    pub(crate) cluster: SnapCluster<M>,
    pub(crate) failures: Vec<FailureAt>,
    pub(crate) done: Vec<u64>,
    pub(crate) start: Snapshot<SnapCluster<M>>,
    pub(crate) since: Snapshot<SnapCluster<M>>,
}

impl<M: SavingMachine> Model for Trace<M> {
    ghost use Rattle.cluster_step.specs.trace.Traces.{TraceView, HasTrace};

    ghost Value = { TraceView M };

    ghost view = { λ c. record {
      start = c.start.value;
      failures = c.failures.items;
      done = c.done.items;
      since = c.since.value;
      now = c.cluster;
    } };

    ghost invariant = { λ c. HasTrace M.represents (record {
      start = c.start.value;
      failures = c.failures.items;
      done = c.done.items;
      since = c.since.value;
      now = c.cluster;
    }) };
}

impl<M: SavingMachine> Trace<M> {
    /// A call opens with this cluster, of which the machines begin their first attempt, and with
    /// the failures that the job orders.
    pub fn open(
        alloc: Global,
        cluster: SnapCluster<M>,
        failures: Vec<FailureAt>,
    ) -> Result<Trace<M>, NoMemory>
        ensures failures { IfOk result (λ c. c.failures ≡ failures.items) }
        ensures start { IfOk result (λ c. c.start ≡ cluster) }
        ensures now { IfOk result (λ c. c.now ≡ cluster) }
        // Nothing has happened yet, in each setting in which the call opens so.
        ensures begun { IfOk result (λ c. (st : Setting) (o : CallOpening) →
            OpensCall M.represents c.start c.failures st o →
            IsTraceNow M.represents c st o [] (first_cluster st o)) }
    {
        let Ok(done) = Vec::from_elem(alloc, 0, cluster.machines()) else {
            drop(failures);
            drop(cluster);
            return Err(NoMemory);
        };
        let start = Snapshot::of(&cluster);
        let since = Snapshot::of(&cluster);
        Ok(Trace {
            cluster,
            failures,
            done,
            start,
            since,
        })
    }

    /// The event happens, where it may happen now and follows the job. It acknowledges no snapshot:
    /// that is done by `acknowledge`; and it doesn't end the run.
    pub fn apply(&mut self, event: Event) -> Result<(), Refused>
        requires names { NamesItsMachines (length self.old.now.machines.items) event }
        requires none { GoesOnBy event }
        ensures made { OnOk result (HappensInCall M.represents self.old event self.new) }
        ensures not_now { IsErrOf result Refused.NotNow →
            IsEventDisabled M.represents self.old event }
        ensures no_memory { IsErrOf result Refused.NoMemory →
            CanHappenInCall M.represents self.old event }
        ensures unchanged { OnErr result (StaysThere M.represents self.old self.new) }
        ensures same { IsSameAttempt self.old self.new }
        ensures since { TraceGoesOn M.represents (as_since self.new) self.new }
    {
        if self.is_held_back(event) {
            return Err(Refused::NotNow);
        }
        self.cluster.apply(event)
    }

    /// A vertex of the machine is updated at once, where the one that the machine looks at may be
    /// now and the machine has reached the count of no failure: a scope of it is admitted, each of
    /// its locks is granted in turn, and its update is made, all on this machine. Of the vertices
    /// that may be admitted the machine looks at one of its choice. Where scopes take no locks none
    /// is.
    pub fn update_at_once(&mut self, at: MachineNo) -> Result<Vertex, Refused>
        requires { at.0 < length self.old.now.machines.items }
        ensures made { IfOk result (λ v.
            HappensAtOnceInCall M.represents self.old at.0 v.0 self.new) }
        ensures not_now { IsErrOf result Refused.NotNow →
            IsLocalUpdateDisabled M.represents self.old at }
        ensures no_memory { IsErrOf result Refused.NoMemory →
            CanHappenAtOnceInCall M.represents self.old at.0 }
        ensures unchanged { OnErr result (StaysThere M.represents self.old self.new) }
        ensures same { IsSameAttempt self.old self.new }
        ensures since { TraceGoesOn M.represents (as_since self.new) self.new }
    {
        if self.has_reached(at) {
            return Err(Refused::NotNow);
        }
        self.cluster.update_at_once(at)
    }

    /// The snapshot of this number, whose record was made, is acknowledged. It takes no memory.
    pub fn acknowledge(&mut self, number: u32)
        requires { IsReadyToAcknowledge self.old.now number }
        ensures made { HappensInCall M.represents self.old (Event.Lead Lead.Record) self.new }
        ensures since { self.new.since ≡ self.new.now }
        ensures same { IsSameAttempt (record self.old { since = self.new.now }) self.new }
    {
        self.cluster.acknowledge(number);
        self.since = Snapshot::of(&self.cluster);
    }

    /// All machines go back to a base: the call goes on with these machines, which begin its next
    /// attempt from it. Of the base only what the machines have of it is asked.
    pub fn recover(
        &mut self,
        alloc: Global,
        machines: Vec<M>,
        engine: Engine,
        store: Option<Store>,
    ) -> Result<(), NoMemory>
        requires again { (st : Setting) × (base : BaseView) × (before : Cluster) ×
            StartsSaving M.represents machines.items engine (option_map store_view store)
            self.old.now.next self.old.now.left st base before }
        requires many { length machines.items ≡ length self.old.now.machines.items }
        requires newest { IfSome store (λ s. s.newest + 1 < 2 ^ 32) }
        requires length { IfSome store (λ s. s.length < 2 ^ 32) }
        ensures recovered { OnOk result
            (HasGoneBack M.represents self.old machines.items engine
            (option_map store_view store) self.new) }
        ensures since { OnOk result (self.new.since ≡ self.new.now) }
        ensures runs { OnOk result (self.new.now.stopped ≡ false) }
        ensures unchanged { OnErr result (self.new ≡ self.old) }
        ensures same { (self.new.start ≡ self.old.start) × (self.new.failures ≡ self.old.failures) ×
            (length self.new.now.machines.items ≡ length self.old.now.machines.items) }
    {
        let done = self.all_completed(alloc)?;
        self.cluster.recover(alloc, machines, engine, store)?;
        self.done = done;
        self.since = Snapshot::of(&self.cluster);
        Ok(())
    }

    /// Remembers where the cluster is, for what is said of what happens from now on.
    pub fn remember(&mut self)
        ensures { self.new ≡ record self.old { since = self.old.now } }
    {
        self.since = Snapshot::of(&self.cluster);
    }

    /// Whether the event would not follow the job.
    fn is_held_back(&self, event: Event) -> bool
        requires { NamesItsMachines (length self.now.now.machines.items) event }
        ensures { InEachTrace M.represents self.now (IsHeldBack self.now.failures event result) }
    {
        match watched(event) {
            Some((m, wanted)) => self.has_reached(m) != wanted,
            None => false,
        }
    }

    /// Whether the machine has reached the count of a failure in the newest attempt.
    pub fn has_reached(&self, m: MachineNo) -> bool
        requires { m.0 < length self.now.now.machines.items }
        ensures { InEachTrace M.represents self.now (λ st o events c.
            result ≡ has_reached self.now.failures c m.0) }
    {
        let before = self.done[m.0 as usize];
        let made = self.log(m).len() as u64;
        is_count_reached(&self.failures, m, before, made)
    }

    /// The updates that a machine has made in the newest attempt: its part of what the call's last
    /// attempt made.
    pub fn log(&self, m: MachineNo) -> &[Entry]
        requires { m.0 < length self.now.now.machines.items }
        ensures log { InEachTrace M.represents self.now (λ st o events c.
            result.now ≡ (c.machine m.0).part.log) }
        ensures made { OfTheCall M.represents self.now (λ st o c call.
            result.now ≡ entries_of m.0 call.last.made) }
    {
        self.cluster.machine(m).log()
    }

    /// How many updates a machine has completed in this call. Each has a ticket of its own, so that
    /// they are fewer than 2^64.
    pub fn completed(&self, m: MachineNo) -> u64
        requires { m.0 < length self.now.now.machines.items }
        ensures count { InEachTrace M.represents self.now (λ st o events c.
            result ≡ completed (c.machine m.0)) }
        ensures made { OfTheCall M.represents self.now (λ st o c call. result ≡ done_of call m.0) }
    {
        let made = self.log(m).len() as u64;
        self.done[m.0 as usize].saturating_add(made)
    }

    /// How many updates each machine has completed in this call.
    pub fn all_completed(&self, alloc: Global) -> Result<Vec<u64>, NoMemory>
        ensures many { IfOk result (λ counts.
            length counts.items ≡ length self.now.now.machines.items) }
        ensures each { IfOk result (λ counts. (a : ℕ) → a < length self.now.now.machines.items →
            InEachTrace M.represents self.now (λ st o events c.
            slice_index_or counts.items a 0 ≡ completed (c.machine a))) }
    {
        let many = self.cluster.machines();
        let mut counts = Vec::with_capacity(alloc, many)?;
        for m in 0..many {
            counts.push_reserved(self.completed(MachineNo(m as u16)));
        }
        Ok(counts)
    }

    /// How many machines there are. Each course from an opening makes a call.
    pub fn machines(&self) -> usize
        ensures count { result ≡ length self.now.now.machines.items }
        ensures small { result < 65535 }
        ensures trace { HasTrace M.represents self.now }
        ensures call { HasCall M.represents self.now }
        // No snapshot was acknowledged since the cluster was remembered, and the attempt is the
        // same.
        ensures since { TraceGoesOn M.represents (as_since self.now) self.now }
    {
        self.cluster.machines()
    }

    /// What is due: a record, the next snapshot, the end, a step, or a wave. Where it is the end
    /// the call has ended; and the snapshot of a record that is due may follow those of the call.
    /// Where no snapshots are taken nothing is left at the end: no task, no scope in flight, nobody
    /// who waits for a lock, and no message between machines.
    pub fn due(&self) -> Due
        ensures due { IsDueOf self.now.now.coordinator result }
        ensures ended { result ≡ Due.Ended →
            OfTheCall M.represents self.now (λ st o c call. HasEndedCall st call) }
        ensures settled { result ≡ Due.Ended → EndsWhereUnsaved M.represents self.now }
        ensures pending { (k : ℕ) → result ≡ Due.Record k →
            OfTheCall M.represents self.now (λ st o c call. MayFollow st c.coordinator call) }
    {
        self.cluster.due()
    }

    /// Whether the waves have shown that nothing is left to do: then the call leaves nothing. Where
    /// no snapshots are taken nothing is on its way either.
    pub fn leaves_nothing(&self) -> bool
        ensures nothing { IsTrue result →
            OfTheCall M.represents self.now (λ st o c call. LeavesNothing st call) }
        ensures settled { IsTrue result → EndsWhereUnsaved M.represents self.now }
    {
        self.cluster.has_seen_the_end()
    }

    /// How many tickets are left: the budget is these and the updates that were made.
    pub fn left(&self) -> u64
        ensures { OfTheCall M.represents self.now (λ st o c call.
            length (made_of call) + result ≡ o.first.left) }
    {
        self.cluster.left()
    }

    /// The ticket of the next update.
    pub fn next(&self) -> u64
        ensures { InEachTrace M.represents self.now (λ st o events c. result ≡ c.next) }
    {
        self.cluster.next()
    }

    /// Whether the run has ended: nothing happens any more.
    pub fn is_stopped(&self) -> bool
        ensures { result ≡ self.now.now.stopped }
    {
        self.cluster.is_stopped()
    }

    /// The record of the snapshot under way. It acknowledges nothing: `acknowledge` does, for which
    /// there is room from then on. `NotNow` comes exactly where the snapshot may not be
    /// acknowledged.
    pub fn record(&mut self, alloc: Global) -> Result<Record, Refused>
        ensures is { IfOk result (λ made.
            InEachTrace M.represents self.old (λ st o events c.
            IsRecordFor st (snapshot_due c.coordinator) made)) }
        ensures due { OnOk result (CanHappenInCall M.represents self.old (Event.Lead Lead.Record)) }
        ensures not_now { IsErrOf result Refused.NotNow →
            IsEventDisabled M.represents self.old (Event.Lead Lead.Record) }
        ensures no_memory { IsErrOf result Refused.NoMemory →
            CanHappenInCall M.represents self.old (Event.Lead Lead.Record) }
        ensures stays { StaysThere M.represents self.old self.new }
        ensures same { IsSameAttempt self.old self.new }
        ensures ready { IfOk result (λ made. IsReadyToAcknowledge self.new.now made.number) }
    {
        self.cluster.record(alloc)
    }

    /// A lock that may be granted at the machine; `None` exactly where none may be.
    pub fn next_grant(&mut self, at: MachineNo) -> Option<Vertex>
        requires { at.0 < length self.old.now.machines.items }
        ensures some { IfSome result (λ x.
            CanTakePlace M.represents self.old.now (Event.Local (Local.Grant at x))) }
        ensures none { IfNone result ((x : Vertex) →
            CanNotTakePlace M.represents self.old.now (Event.Local (Local.Grant at x))) }
        ensures stays { StaysThere M.represents self.old self.new }
        ensures same { IsSameAttempt self.old self.new }
    {
        self.cluster.next_grant(at)
    }

    /// A scope of the machine whose update may be made, but for a ticket that it may lack: its
    /// vertex is a task, also after the call's order. Where it is `None` no update of the machine
    /// may be made.
    pub fn next_update(&self, at: MachineNo) -> Option<ScopeId>
        requires { at.0 < length self.now.now.machines.items }
        ensures home { IfSome result (λ s. s.home ≡ at) }
        ensures task { IfSome result (λ s.
            OfTheCall M.represents self.now (λ st o c call. HasTaskLeft st call)) }
        ensures flagged { IfSome result (λ s.
            InEachTrace M.represents self.now (λ st o events c. (v : ℕ) ×
            ((c.machine at.0).part.task v ≡ true))) }
        ensures none { IfNone result ((s : ScopeId) → s.home ≡ at →
            CanNotTakePlace M.represents self.now.now (Event.Local (Local.Update s))) }
    {
        self.cluster.machine(at).next_update()
    }

    /// A scope of the machine whose snapshot update may be made; `None` exactly where there is
    /// none.
    pub fn next_mark(&self, at: MachineNo) -> Option<ScopeId>
        requires { at.0 < length self.now.now.machines.items }
        ensures home { IfSome result (λ s. s.home ≡ at) }
        ensures some { IfSome result (λ s.
            CanTakePlace M.represents self.now.now (Event.Local (Local.Mark s))) }
        ensures none { IfNone result ((s : ScopeId) → s.home ≡ at →
            CanNotTakePlace M.represents self.now.now (Event.Local (Local.Mark s))) }
    {
        self.cluster.next_mark(at)
    }

    /// Whether the machine has failed in this attempt.
    pub fn has_failed(&self, m: MachineNo) -> bool
        requires { m.0 < length self.now.now.machines.items }
        ensures { InEachTrace M.represents self.now (λ st o events c.
            result ≡ (c.machine m.0).failed) }
    {
        self.cluster.has_failed(m)
    }

    /// A machine, to be read.
    pub fn machine(&self, m: MachineNo) -> &M
        requires { m.0 < length self.now.now.machines.items }
        ensures { InEachTrace M.represents self.now (λ st o events c.
            M.represents (newest_setting st o events) m.0 (c.machine m.0) result.now) }
    {
        self.cluster.machine(m)
    }

    /// Whether word is on its way between the coordinator and the machine: it waits at one of them,
    /// or is on a link.
    pub fn has_word(&self, at: MachineNo) -> bool
        requires { at.0 < length self.now.now.machines.items }
        ensures { InEachTrace M.represents self.now (λ st o events c. (result ≡ false) ↔
            HasNoWordAt c at.0) }
    {
        self.cluster.has_word(at)
    }

    /// The coordinator, to be read.
    pub fn coordinator(&self) -> &Coordinator
        ensures { result.now ≡ self.now.now.coordinator }
    {
        self.cluster.coordinator()
    }
}
