//! The machines of a cluster that takes snapshots, their links, the coordinator, and the tickets.
ghost use Rattle.std.specs.Prelude.{◌≡◌, ◌+◌, ◌-◌, ◌^◌, ◌<◌, ◌≤◌, ◌⊎◌, true, false, length, option_map, replicate, slice_index_or, IfOk, IfSome, IfNone, IsErrOf, IsTrue, OnOk};
ghost use Rattle.cluster_laws.specs.cluster_core.Recovering.{going_on};
ghost use Rattle.cluster_laws.specs.cluster_model.Events.{recovers};
ghost use Rattle.cluster_step.specs.clusters.Inner.Writing.{HasLinkBetween};
ghost use Rattle.coordinator.specs.coord_core.Stores.{store_view};
ghost use Rattle.cluster_step.specs.clusters.AtOnce.{AnswersAtOnce};
ghost use Rattle.cluster_step.specs.clusters.Clusters.{BaseView, Cluster, InEachCluster, IsSavingClusterOf, Setting, StandsForSaving, StandsForSameSaving, StartsSaving};
ghost use Rattle.cluster_step.specs.clusters.Cuts.{RecordsCut};
ghost use Rattle.cluster_step.specs.clusters.Events.{AnswersEvent, CanNotTakePlace, CanTakePlace, IsReadyToAcknowledge, TakesPlace, NamesLocal, NamesItsMachines, NamesPassage, acting, acting_local, acting_passage, is_resting};

use crate::clusters::events::{Event, Lead, Local, Passage};
use crate::clusters::links::Links;
use coordinator::coord_core::{Coordinator, Engine, Store};
use coordinator::machine_api::SavingMachine;
use gl_base::{MachineNo, NoMemory, Record, Refused, ScopeId, Vertex};
use std::alloc::Global;
use wire::wire_msgs::Returned;

/// A cluster's machines, which of them have failed, the links between them and behind those the
/// ones from the coordinator and to it, the coordinator, the next ticket, how many tickets are
/// left, and whether the run has ended.
#[derive(Drop)]
pub struct Parts<M> {
    pub machines: Vec<M>,
    pub failed: Vec<bool>,
    pub links: Links,
    pub coordinator: Coordinator,
    pub next: u64,
    pub left: u64,
    pub stopped: bool,
}

impl<M: SavingMachine> Parts<M> {
    /// The event happens, where it may happen now.
    pub(crate) fn make(&mut self, event: Event) -> Result<(), Refused>
        requires within { NamesItsMachines (length self.old.machines.items) event }
        requires some { StandsForSaving M.represents self.old }
        ensures { AnswersEvent M.represents self.old event result self.new }
    {
        if self.stopped || self.rests(event) {
            return Err(Refused::NotNow);
        }
        match event {
            Event::Local(local) => self.make_local(local),
            Event::Lead(lead) => self.make_lead(lead),
            Event::Passage(passage) => self.make_passage(passage),
        }
    }

    /// Whether the machine that acts in the event has failed.
    fn rests(&self, event: Event) -> bool
        ensures { result ≡ is_resting self.now.failed.items (acting event) }
    {
        match event.acting() {
            Some(at) => self.has_failed(at),
            None => false,
        }
    }

    /// Whether the machine has failed.
    pub(crate) fn has_failed(&self, at: MachineNo) -> bool
        ensures { result ≡ slice_index_or self.now.failed.items at.0 false }
    {
        match self.failed.get(at.0 as usize) {
            Some(failed) => *failed,
            None => false,
        }
    }

    /// The record of the snapshot under way, where it may be acknowledged now, with room for the
    /// word of that.
    pub(crate) fn record(&mut self, alloc: Global) -> Result<Record, Refused>
        ensures cut { IfOk result (λ made.
            InEachCluster M.represents self.old (λ st c. RecordsCut st c made)) }
        ensures due { OnOk result (CanTakePlace M.represents self.old (Event.Lead Lead.Record)) }
        ensures not_now { IsErrOf result Refused.NotNow →
            CanNotTakePlace M.represents self.old (Event.Lead Lead.Record) }
        ensures no_memory { IsErrOf result Refused.NoMemory →
            CanTakePlace M.represents self.old (Event.Lead Lead.Record) }
        ensures same { StandsForSameSaving M.represents self.old self.new }
        ensures machines { self.new.machines ≡ self.old.machines }
        ensures ready { IfOk result (λ made. IsReadyToAcknowledge self.new made.number) }
    {
        if self.stopped {
            return Err(Refused::NotNow);
        }
        self.coordinator.record(alloc)
    }

    /// The snapshot of this number, whose record was made, is acknowledged. It takes no memory.
    pub(crate) fn recorded(&mut self, number: u32)
        requires { IsReadyToAcknowledge self.old number }
        ensures made { TakesPlace M.represents self.old (Event.Lead Lead.Record) self.new }
        ensures machines { self.new.machines ≡ self.old.machines }
        ensures stopped { self.new.stopped ≡ self.old.stopped }
    {
        self.coordinator.recorded(number);
    }

    /// Whether nothing happens at the machine: the run has ended, or the machine has failed.
    fn is_still(&self, at: MachineNo) -> bool
        ensures yes { IsTrue result → (self.now.stopped ≡ true) ⊎
            (slice_index_or self.now.failed.items at.0 false ≡ true) }
        ensures no { result ≡ false → (self.now.stopped ≡ false) ×
            (slice_index_or self.now.failed.items at.0 false ≡ false) }
    {
        self.stopped || self.has_failed(at)
    }

    /// A lock that may be granted at the machine.
    pub(crate) fn next_grant(&mut self, at: MachineNo) -> Option<Vertex>
        requires { at.0 < length self.old.machines.items }
        ensures some { IfSome result (λ x.
            CanTakePlace M.represents self.old (Event.Local (Local.Grant at x))) }
        ensures none { IfNone result ((x : Vertex) →
            CanNotTakePlace M.represents self.old (Event.Local (Local.Grant at x))) }
        ensures same { StandsForSameSaving M.represents self.old self.new }
        ensures machines { length self.new.machines.items ≡ length self.old.machines.items }
    {
        if self.is_still(at) {
            return None;
        }
        self.machines[at.0 as usize].next_grant()
    }

    /// A scope of the machine whose update may be made.
    pub(crate) fn next_update(&self, at: MachineNo) -> Option<ScopeId>
        requires within { at.0 < length self.now.machines.items }
        requires cluster { StandsForSaving M.represents self.now }
        ensures home { IfSome result (λ s. s.home ≡ at) }
        ensures some { IfSome result (λ s.
            CanTakePlace M.represents self.now (Event.Local (Local.Update s))) }
        ensures none { IfNone result ((s : ScopeId) → s.home ≡ at →
            CanNotTakePlace M.represents self.now (Event.Local (Local.Update s))) }
    {
        if self.is_still(at) || self.left == 0 {
            return None;
        }
        self.machines[at.0 as usize].next_update()
    }

    /// A scope of the machine whose snapshot update may be made.
    pub(crate) fn next_mark(&self, at: MachineNo) -> Option<ScopeId>
        requires within { at.0 < length self.now.machines.items }
        requires cluster { StandsForSaving M.represents self.now }
        ensures home { IfSome result (λ s. s.home ≡ at) }
        ensures some { IfSome result (λ s.
            CanTakePlace M.represents self.now (Event.Local (Local.Mark s))) }
        ensures none { IfNone result ((s : ScopeId) → s.home ≡ at →
            CanNotTakePlace M.represents self.now (Event.Local (Local.Mark s))) }
    {
        if self.is_still(at) {
            return None;
        }
        self.machines[at.0 as usize].next_mark()
    }

    /// Whether the machine may put its section out now.
    pub(crate) fn has_section(&mut self, at: MachineNo) -> bool
        requires { at.0 < length self.old.machines.items }
        ensures yes { IsTrue result →
            CanTakePlace M.represents self.old (Event.Local (Local.Section at)) }
        ensures no { result ≡ false →
            CanNotTakePlace M.represents self.old (Event.Local (Local.Section at)) }
        ensures same { StandsForSameSaving M.represents self.old self.new }
        ensures machines { length self.new.machines.items ≡ length self.old.machines.items }
    {
        if self.is_still(at) {
            return false;
        }
        self.machines[at.0 as usize].has_section()
    }

    /// A machine does this by itself.
    fn make_local(&mut self, local: Local) -> Result<(), Refused>
        requires within { NamesLocal (length self.old.machines.items) local }
        requires runs { self.old.stopped ≡ false }
        requires awake { slice_index_or self.old.failed.items (acting_local local) false ≡ false }
        requires flags { length self.old.failed.items ≡ length self.old.machines.items }
        requires few { self.old.next + self.old.left < 2 ^ 64 }
        ensures { AnswersEvent M.represents self.old (Event.Local local) result self.new }
    {
        match local {
            Local::Admit(at) => self.admit(at),
            Local::Grant(at, x) => self.grant(at, x),
            Local::Update(scope) => self.update(scope),
            Local::Mark(scope) => self.mark(scope),
            Local::Section(at) => self.section(at),
            Local::Fail(at) => self.fail(at),
        }
    }

    /// The coordinator does this by itself.
    fn make_lead(&mut self, lead: Lead) -> Result<(), Refused>
        requires { self.old.stopped ≡ false }
        ensures { AnswersEvent M.represents self.old (Event.Lead lead) result self.new }
    {
        match lead {
            Lead::Record => self.acknowledge(),
            Lead::Begin => self.begin(),
            Lead::Step => self.step(),
            Lead::Wave => self.wave(),
            Lead::Stop => self.stop(),
        }
    }

    /// This goes onto a link, or comes.
    fn make_passage(&mut self, passage: Passage) -> Result<(), Refused>
        requires within { NamesPassage (length self.old.machines.items) passage }
        requires runs { self.old.stopped ≡ false }
        requires awake { is_resting self.old.failed.items (acting_passage passage) ≡ false }
        requires some { StandsForSaving M.represents self.old }
        ensures { AnswersEvent M.represents self.old (Event.Passage passage) result self.new }
    {
        match passage {
            Passage::Send { from, to } => self.send(from, to),
            Passage::Deliver { from, to } => self.deliver(from, to),
            Passage::SendCall(to) => self.send_call(to),
            Passage::DeliverCall(to) => self.deliver_call(to),
            Passage::SendReport(from) => self.send_report(from),
            Passage::DeliverReport(from) => self.deliver_report(from),
        }
    }

    /// The machine admits a scope.
    fn admit(&mut self, at: MachineNo) -> Result<(), Refused>
        requires within { at.0 < length self.old.machines.items }
        requires runs { self.old.stopped ≡ false }
        requires awake { slice_index_or self.old.failed.items at.0 false ≡ false }
        ensures { AnswersEvent M.represents self.old
            (Event.Local (Local.Admit at)) result self.new }
    {
        self.machines[at.0 as usize].admit()
    }

    /// The first that waits at the machine for the lock has it.
    fn grant(&mut self, at: MachineNo, x: Vertex) -> Result<(), Refused>
        requires within { at.0 < length self.old.machines.items }
        requires runs { self.old.stopped ≡ false }
        requires awake { slice_index_or self.old.failed.items at.0 false ≡ false }
        ensures { AnswersEvent M.represents self.old
            (Event.Local (Local.Grant at x)) result self.new }
    {
        self.machines[at.0 as usize].grant(x)
    }

    /// The snapshot update of the scope is made at its home.
    fn mark(&mut self, scope: ScopeId) -> Result<(), Refused>
        requires within { scope.home.0 < length self.old.machines.items }
        requires runs { self.old.stopped ≡ false }
        requires awake { slice_index_or self.old.failed.items scope.home.0 false ≡ false }
        ensures { AnswersEvent M.represents self.old
            (Event.Local (Local.Mark scope)) result self.new }
    {
        self.machines[scope.home.0 as usize].mark(scope)
    }

    /// The machine puts its section out.
    fn section(&mut self, at: MachineNo) -> Result<(), Refused>
        requires within { at.0 < length self.old.machines.items }
        requires runs { self.old.stopped ≡ false }
        requires awake { slice_index_or self.old.failed.items at.0 false ≡ false }
        ensures { AnswersEvent M.represents self.old
            (Event.Local (Local.Section at)) result self.new }
    {
        self.machines[at.0 as usize].section()
    }

    /// The machine fails.
    fn fail(&mut self, at: MachineNo) -> Result<(), Refused>
        requires within { at.0 < length self.old.machines.items }
        requires runs { self.old.stopped ≡ false }
        requires awake { slice_index_or self.old.failed.items at.0 false ≡ false }
        requires flags { length self.old.failed.items ≡ length self.old.machines.items }
        ensures { AnswersEvent M.represents self.old (Event.Local (Local.Fail at)) result self.new }
    {
        self.machines[at.0 as usize].fail();
        self.failed[at.0 as usize] = true;
        Ok(())
    }

    /// The update of the scope is made at its home, under the next ticket.
    fn update(&mut self, scope: ScopeId) -> Result<(), Refused>
        requires within { scope.home.0 < length self.old.machines.items }
        requires runs { self.old.stopped ≡ false }
        requires awake { slice_index_or self.old.failed.items scope.home.0 false ≡ false }
        requires few { self.old.next + self.old.left < 2 ^ 64 }
        ensures { AnswersEvent M.represents self.old
            (Event.Local (Local.Update scope)) result self.new }
    {
        if self.left == 0 {
            return Err(Refused::NotNow);
        }
        match self.machines[scope.home.0 as usize].update(scope, self.next) {
            Ok(()) => {
                self.draw();
                Ok(())
            }
            Err(refused) => Err(refused),
        }
    }

    /// A vertex of the machine is updated at once, under the next ticket, where the one that the
    /// machine looks at may be now.
    pub(crate) fn update_at_once(&mut self, at: MachineNo) -> Result<Vertex, Refused>
        requires within { at.0 < length self.old.machines.items }
        requires some { StandsForSaving M.represents self.old }
        ensures answers { AnswersAtOnce M.represents self.old at result self.new }
        ensures machines { length self.new.machines.items ≡ length self.old.machines.items }
        ensures stopped { self.new.stopped ≡ self.old.stopped }
    {
        if self.is_still(at) || self.left == 0 {
            return Err(Refused::NotNow);
        }
        match self.machines[at.0 as usize].update_at_once(self.next) {
            Ok(vertex) => {
                self.draw();
                Ok(vertex)
            }
            Err(refused) => Err(refused),
        }
    }

    /// The next ticket is drawn.
    fn draw(&mut self)
        requires some { 0 < self.old.left }
        requires few { self.old.next + self.old.left < 2 ^ 64 }
        ensures { self.new ≡ record self.old {
          next = self.old.next + 1;
          left = self.old.left - 1;
        } }
    {
        self.next += 1;
        self.left -= 1;
    }

    /// The first message that waits at the one machine for the other goes onto the link.
    fn send(&mut self, from: MachineNo, to: MachineNo) -> Result<(), Refused>
        requires within { (from.0 < length self.old.machines.items) ×
            (to.0 < length self.old.machines.items) }
        requires runs { self.old.stopped ≡ false }
        requires awake { slice_index_or self.old.failed.items from.0 false ≡ false }
        requires links { HasLinkBetween self.old.links from.0 to.0 }
        ensures { AnswersEvent M.represents self.old
            (Event.Passage (Passage.Send from to)) result self.new }
    {
        let machine = &mut self.machines[from.0 as usize];
        if !machine.waits(to) {
            return Err(Refused::NotNow);
        }
        if self.links.reserve(from, to).is_err() {
            return Err(Refused::NoMemory);
        }
        let Some(message) = machine.outbox_take(to) else {
            return Err(Refused::NotNow);
        };
        self.links.push(from, to, message);
        Ok(())
    }

    /// The first message on the link from the one machine to the other is received.
    fn deliver(&mut self, from: MachineNo, to: MachineNo) -> Result<(), Refused>
        requires within { (from.0 < length self.old.machines.items) ×
            (to.0 < length self.old.machines.items) }
        requires runs { self.old.stopped ≡ false }
        requires awake { slice_index_or self.old.failed.items to.0 false ≡ false }
        requires some { StandsForSaving M.represents self.old }
        requires links { HasLinkBetween self.old.links from.0 to.0 }
        ensures { AnswersEvent M.represents self.old
            (Event.Passage (Passage.Deliver from to)) result self.new }
    {
        let Some(message) = self.links.take(from, to) else {
            return Err(Refused::NotNow);
        };
        match self.machines[to.0 as usize].receive(from, message) {
            Ok(()) => Ok(()),
            Err(Returned { message }) => {
                self.links.put_back(from, to, message);
                Err(Refused::NoMemory)
            }
        }
    }

    /// The next snapshot begins.
    fn begin(&mut self) -> Result<(), Refused>
        requires runs { self.old.stopped ≡ false }
        ensures { AnswersEvent M.represents self.old (Event.Lead Lead.Begin) result self.new }
    {
        self.coordinator.begin()
    }

    /// The next step of a colour begins.
    fn step(&mut self) -> Result<(), Refused>
        requires runs { self.old.stopped ≡ false }
        ensures { AnswersEvent M.represents self.old (Event.Lead Lead.Step) result self.new }
    {
        self.coordinator.step()
    }

    /// The coordinator puts a wave out.
    fn wave(&mut self) -> Result<(), Refused>
        requires runs { self.old.stopped ≡ false }
        ensures { AnswersEvent M.represents self.old (Event.Lead Lead.Wave) result self.new }
    {
        self.coordinator.wave()
    }

    /// The snapshot under way is acknowledged.
    fn acknowledge(&mut self) -> Result<(), Refused>
        requires runs { self.old.stopped ≡ false }
        ensures { AnswersEvent M.represents self.old (Event.Lead Lead.Record) result self.new }
    {
        let number = match self.coordinator.make_ready() {
            Ok(number) => number,
            Err(refused) => return Err(refused),
        };
        self.coordinator.recorded(number);
        Ok(())
    }

    /// The run has ended.
    fn stop(&mut self) -> Result<(), Refused>
        requires runs { self.old.stopped ≡ false }
        ensures { AnswersEvent M.represents self.old (Event.Lead Lead.Stop) result self.new }
    {
        self.stopped = true;
        Ok(())
    }

    /// Which place the coordinator has among the links.
    pub(crate) fn lead(&self) -> MachineNo
        requires { length self.now.machines.items < 65535 }
        ensures { result.0 ≡ length self.now.machines.items }
    {
        MachineNo(self.machines.len() as u16)
    }

    /// The first message that waits at the coordinator for the machine goes onto the link.
    fn send_call(&mut self, to: MachineNo) -> Result<(), Refused>
        requires within { to.0 < length self.old.machines.items }
        requires runs { self.old.stopped ≡ false }
        requires many { length self.old.machines.items < 65535 }
        requires links { HasLinkBetween self.old.links (length self.old.machines.items) to.0 }
        ensures { AnswersEvent M.represents self.old
            (Event.Passage (Passage.SendCall to)) result self.new }
    {
        if !self.coordinator.waits(to) {
            return Err(Refused::NotNow);
        }
        let lead = self.lead();
        if self.links.reserve(lead, to).is_err() {
            return Err(Refused::NoMemory);
        }
        let Some(message) = self.coordinator.outbox_take(to) else {
            return Err(Refused::NotNow);
        };
        self.links.push(lead, to, message);
        Ok(())
    }

    /// The first message on the link from the coordinator comes to the machine.
    fn deliver_call(&mut self, to: MachineNo) -> Result<(), Refused>
        requires within { to.0 < length self.old.machines.items }
        requires runs { self.old.stopped ≡ false }
        requires awake { slice_index_or self.old.failed.items to.0 false ≡ false }
        requires some { StandsForSaving M.represents self.old }
        requires many { length self.old.machines.items < 65535 }
        requires links { HasLinkBetween self.old.links (length self.old.machines.items) to.0 }
        ensures { AnswersEvent M.represents self.old
            (Event.Passage (Passage.DeliverCall to)) result self.new }
    {
        let lead = self.lead();
        let Some(message) = self.links.take(lead, to) else {
            return Err(Refused::NotNow);
        };
        match self.machines[to.0 as usize].hear(message) {
            Ok(()) => Ok(()),
            Err(Returned { message }) => {
                self.links.put_back(lead, to, message);
                Err(Refused::NoMemory)
            }
        }
    }

    /// The first message that waits at the machine for the coordinator goes onto the link.
    fn send_report(&mut self, from: MachineNo) -> Result<(), Refused>
        requires within { from.0 < length self.old.machines.items }
        requires runs { self.old.stopped ≡ false }
        requires awake { slice_index_or self.old.failed.items from.0 false ≡ false }
        requires many { length self.old.machines.items < 65535 }
        requires links { HasLinkBetween self.old.links from.0 (length self.old.machines.items) }
        ensures { AnswersEvent M.represents self.old
            (Event.Passage (Passage.SendReport from)) result self.new }
    {
        let lead = self.lead();
        let machine = &mut self.machines[from.0 as usize];
        if !machine.has_report() {
            return Err(Refused::NotNow);
        }
        if self.links.reserve(from, lead).is_err() {
            return Err(Refused::NoMemory);
        }
        let Some(message) = machine.report_take() else {
            return Err(Refused::NotNow);
        };
        self.links.push(from, lead, message);
        Ok(())
    }

    /// The first message on the link to the coordinator comes.
    fn deliver_report(&mut self, from: MachineNo) -> Result<(), Refused>
        requires within { from.0 < length self.old.machines.items }
        requires runs { self.old.stopped ≡ false }
        requires some { StandsForSaving M.represents self.old }
        requires many { length self.old.machines.items < 65535 }
        requires links { HasLinkBetween self.old.links from.0 (length self.old.machines.items) }
        ensures { AnswersEvent M.represents self.old
            (Event.Passage (Passage.DeliverReport from)) result self.new }
    {
        let lead = self.lead();
        let Some(message) = self.links.take(from, lead) else {
            return Err(Refused::NotNow);
        };
        self.coordinator.receive(from, message);
        Ok(())
    }
}

/// The parts of a cluster that begins an attempt with these machines, this engine and this store,
/// and these tickets. Nothing is on its way.
pub(crate) fn first_parts<M: SavingMachine>(
    alloc: Global,
    machines: Vec<M>,
    engine: Engine,
    store: Option<Store>,
    next: u64,
    left: u64,
) -> Result<Parts<M>, NoMemory>
    requires many { length machines.items < 65535 }
    requires few { next + left < 2 ^ 64 }
    requires newest { IfSome store (λ s. s.newest + 1 < 2 ^ 32) }
    requires length { IfSome store (λ s. s.length < 2 ^ 32) }
    ensures began { IfOk result (λ p. (st : Setting) (base : BaseView) (before : Cluster) →
        StartsSaving M.represents machines.items engine (option_map store_view store)
        next left st base before →
        IsSavingClusterOf M.represents (going_on st base.numbers base.number) p
        (recovers st base before)) }
    ensures machines { IfOk result (λ p. p.machines.items ≡ machines.items) }
{
    let many = machines.len();
    let links = Links::new(alloc, many + 1)?;
    let coordinator = Coordinator::new(alloc, many as u16, engine, store)?;
    let failed = none_failed(alloc, many)?;
    Ok(Parts {
        machines,
        failed,
        links,
        coordinator,
        next,
        left,
        stopped: false,
    })
}

/// None of so many machines has failed.
fn none_failed(alloc: Global, machines: usize) -> Result<Vec<bool>, NoMemory>
    ensures { IfOk result (λ failed. failed.items ≡ replicate machines false) }
{
    Ok(vec![in alloc; false; machines]?)
}
