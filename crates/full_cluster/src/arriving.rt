//! Messages come to a machine.
ghost use Rattle.std.specs.Prelude.{◌≡◌, ℕ, ◌<◌, Bool, List, None, Some, slice_get, length, vec_len, OnOk, OnErr, IfOk, IsErrOf};
ghost use Rattle.std.specs.Vec.{vec_capacity};
ghost use Rattle.graph_core.specs.DataGraph.{DataGraph};
ghost use Rattle.cluster_laws.specs.cluster_core.Settings.{Setting};
ghost use Rattle.full_laws.specs.FullActions.{HasFirstFull};
ghost use Rattle.full_laws.specs.FullEffects.{received_full};
ghost use Rattle.full_laws.specs.FullMessages.{FullMessage as ModelMessage};
ghost use Rattle.full_laws.specs.FullParts.{FullPart};
ghost use Rattle.gl_base.specs.declared.scopes.ScopeId.{ScopeId};
ghost use Rattle.full_cluster.specs.FullMachines.{GivesWhatItHolds, HasDelivered, HasRoomToGoOn, HasSameFlights, IsMachineOf, IsOrderedFor, IsPreparedFor, IsReceivable, IsSizedFor, IsSameMachine};
ghost use Rattle.full_cluster.specs.FullQueues.{AreQueuesOf, HasRoomFor, IsFirstIn, IsMessage};
ghost use Rattle.full_cluster.specs.Given.{IsDividedAs};
ghost use Rattle.full_cluster.specs.ScopeMaps.{AreOnce};
ghost use Rattle.full_cluster.specs.WholeLocks.{AreLocksOf, HasRoomAt};

use crate::{Division, FullMachine, FullMessage, FullQueues, ScopeStand, WholeLocks};
use gl_base::{MachineNo, NoMemory, Refused, ScopeId, Vertex};
use std::alloc::Global;

impl FullMachine {
    /// The first message for this machine on the links from another is received. `NotNow` comes
    /// exactly where no message waits there, and after an error all is as it was.
    pub fn deliver(
        &mut self,
        alloc: Global,
        division: &Division<'_>,
        links: &mut FullQueues,
    ) -> Result<(), Refused>
        requires sized { IsSizedFor self.old division.now.graph.now }
        requires once { AreOnce self.old.stands.entries.items }
        requires ready_once { AreOnce self.old.ready.entries.items }
        requires receivable { (message : FullMessage) →
            IsFirstIn links.old.queues.items self.old.me.0 message →
            IsReceivable self.old message }
        ensures still { IsSameMachine self.old self.new }
        ensures links_count { length links.new.queues.items ≡ length links.old.queues.items }
        ensures delivered { (st : Setting) (part : FullPart) (on : ℕ → List ModelMessage) →
            IsDividedAs st division.now → IsMachineOf st self.old part →
            AreQueuesOf st links.old.queues.items on →
            ((has : HasFirstFull (on self.old.me.0)) → GivesWhatItHolds st part has.message) →
            OnOk result
            (HasDelivered st self.new links.new.queues.items on self.old.me.0 part) }
        ensures not_now { (st : Setting) (on : ℕ → List ModelMessage) →
            AreQueuesOf st links.old.queues.items on → IsErrOf result Refused.NotNow →
            HasFirstFull (on self.old.me.0) → ⊥ }
        ensures no_memory { (st : Setting) (on : ℕ → List ModelMessage) →
            AreQueuesOf st links.old.queues.items on → IsErrOf result Refused.NoMemory →
            HasFirstFull (on self.old.me.0) }
        ensures unchanged { (st : Setting) (part : FullPart) (on : ℕ → List ModelMessage) →
            IsMachineOf st self.old part → AreQueuesOf st links.old.queues.items on →
            OnErr result (IsMachineOf st self.new part ×
            AreQueuesOf st links.new.queues.items on) }
    {
        let me = self.me;
        let Some(message) = links.front(me) else {
            return Err(Refused::NotNow);
        };
        let part = self.prepare(alloc, division, message)?;
        if let Some(message) = links.take(me) {
            self.receive(message, part);
        }
        Ok(())
    }

    /// Makes room to receive a message, and answers which locks a scope that comes with it takes
    /// here. Nothing else changes, whatever the answer.
    pub(crate) fn prepare(
        &mut self,
        alloc: Global,
        division: &Division<'_>,
        message: &FullMessage,
    ) -> Result<Vec<Vertex>, NoMemory>
        requires sized { IsSizedFor self.old division.now.graph.now }
        requires receivable { IsReceivable self.old message.now }
        ensures prepared { IfOk result (IsPreparedFor self.new message.now) }
        ensures ordered { (st : Setting) → IsDividedAs st division.now → IfOk result (λ part.
            IsOrderedFor st self.old.me.0 message.now part.items) }
        ensures still { IsSameMachine self.old self.new }
        ensures flights { HasSameFlights self.old self.new }
        ensures same { (st : Setting) (part : FullPart) →
            IsMachineOf st self.old part → IsMachineOf st self.new part }
        ensures stands { self.new.stands.entries.items ≡ self.old.stands.entries.items }
        ensures ready { self.new.ready.entries.items ≡ self.old.ready.entries.items }
        ensures kept { self.new.kept ≡ self.old.kept }
        ensures locks { length self.new.locks.locks.items ≡ length self.old.locks.locks.items }
    {
        match message {
            FullMessage::Gather {
                scope,
                centre,
                rest,
                ..
            } => {
                let part = division.lock_order(alloc, *centre, self.me)?;
                self.reserve(*scope, first_vertex(&part), first_machine(rest))?;
                Ok(part)
            }
            FullMessage::Home { .. } => {
                self.ready.reserve()?;
                Ok(Vec::new(alloc))
            }
            FullMessage::Give { .. } => Ok(Vec::new(alloc)),
        }
    }

    /// Receives a message. A scope that comes with it stands before the first of these locks: it
    /// waits for that, or goes on at once if it has none here. It takes no memory.
    pub(crate) fn receive(&mut self, message: FullMessage, part: Vec<Vertex>)
        requires sized { (g : DataGraph) × IsSizedFor self.old g }
        requires prepared { IsPreparedFor self.old message part }
        requires once { AreOnce self.old.stands.entries.items }
        requires ready_once { AreOnce self.old.ready.entries.items }
        ensures still { IsSameMachine self.old self.new }
        ensures received { (st : Setting) (old : FullPart) (m : ModelMessage) →
            IsMachineOf st self.old old → IsMessage st message m →
            IsOrderedFor st self.old.me.0 message part.items → GivesWhatItHolds st old m →
            IsMachineOf st self.new (received_full st self.old.me.0 m old) }
    {
        match message {
            FullMessage::Gather {
                scope,
                centre,
                rest,
                seen,
            } => {
                let stand = ScopeStand {
                    centre,
                    part,
                    place: 0,
                    rest,
                    seen,
                };
                self.go_on(scope, stand);
            }
            FullMessage::Home { scope, seen } => self.receive_home(scope, seen),
            FullMessage::Give { scope, gift } => self.receive_give(scope, &gift),
        }
    }

    /// Makes room for a scope that waits for this lock, or else leaves for this machine, or else for
    /// its home. Nothing else changes, whatever the answer.
    pub(crate) fn reserve(
        &mut self,
        scope: ScopeId,
        next: Option<Vertex>,
        machine: Option<MachineNo>,
    ) -> Result<(), NoMemory>
        requires lock { (y : Vertex) → next ≡ Some y → y.0 < length self.old.locks.locks.items }
        requires machine { (b : MachineNo) → machine ≡ Some b →
            b.0 < length self.old.out.queues.items }
        requires home { scope.home.0 < length self.old.out.queues.items }
        ensures room { OnOk result ((stand : ScopeStand) →
            next ≡ slice_get stand.part.items stand.place →
            machine ≡ slice_get stand.rest.items 0 → HasRoomToGoOn self.new scope stand) }
        ensures still { IsSameMachine self.old self.new }
        ensures flights { HasSameFlights self.old self.new }
        ensures same { (st : Setting) (part : FullPart) →
            IsMachineOf st self.old part → IsMachineOf st self.new part }
        ensures stands { self.new.stands.entries.items ≡ self.old.stands.entries.items }
        ensures ready { self.new.ready.entries.items ≡ self.old.ready.entries.items }
        ensures kept { self.new.kept ≡ self.old.kept }
        ensures locks { length self.new.locks.locks.items ≡ length self.old.locks.locks.items }
        ensures room_kept { vec_len self.old.stands.entries < vec_capacity self.old.stands.entries →
            vec_len self.new.stands.entries < vec_capacity self.new.stands.entries }
    {
        reserve_lock(&mut self.locks, next)?;
        self.out.reserve(scope.home)?;
        reserve_machine(&mut self.out, machine)?;
        self.stands.reserve()?;
        self.ready.reserve()?;
        Ok(())
    }
}

/// The first of these vertices, if there is one.
fn first_vertex(part: &[Vertex]) -> Option<Vertex>
    ensures { result ≡ slice_get part.now 0 }
{
    part.first().copied()
}

/// The first of these machines, if there is one.
fn first_machine(rest: &[MachineNo]) -> Option<MachineNo>
    ensures { result ≡ slice_get rest.now 0 }
{
    rest.first().copied()
}

/// Makes room for one more scope that waits for this lock, if it is one.
fn reserve_lock(locks: &mut WholeLocks, next: Option<Vertex>) -> Result<(), NoMemory>
    requires { (y : Vertex) → next ≡ Some y → y.0 < length locks.old.locks.items }
    ensures count { length locks.new.locks.items ≡ length locks.old.locks.items }
    ensures room { OnOk result ((y : Vertex) → next ≡ Some y → HasRoomAt locks.new.locks.items y.0) }
    ensures same { (holds : ℕ → ScopeId → Bool) (queue : ℕ → List ScopeId) →
        AreLocksOf locks.old.locks.items holds queue →
        AreLocksOf locks.new.locks.items holds queue }
{
    match next {
        Some(y) => locks.reserve(y),
        None => Ok(()),
    }
}

/// Makes room for one more message for this machine, if it is one.
fn reserve_machine(out: &mut FullQueues, machine: Option<MachineNo>) -> Result<(), NoMemory>
    requires { (b : MachineNo) → machine ≡ Some b → b.0 < length out.old.queues.items }
    ensures count { length out.new.queues.items ≡ length out.old.queues.items }
    ensures room { OnOk result ((b : MachineNo) → machine ≡ Some b →
        HasRoomFor out.new.queues.items b.0) }
    ensures kept { (q : ℕ) → q < length out.old.queues.items →
        HasRoomFor out.old.queues.items q → HasRoomFor out.new.queues.items q }
    ensures same { (st : Setting) (waits : ℕ → List ModelMessage) →
        AreQueuesOf st out.old.queues.items waits → AreQueuesOf st out.new.queues.items waits }
{
    match machine {
        Some(b) => out.reserve(b),
        None => Ok(()),
    }
}
