//! All machines of a run, with the links between them, on one thread.
ghost use Rattle.std.specs.Prelude.{◌≡◌, ℕ, ◌+◌, ◌-◌, ◌^◌, ◌<◌, OnOk, OnErr, IsErrOf};
ghost use Rattle.cluster_laws.specs.cluster_core.Settings.{Setting};
ghost use Rattle.full_scope.specs.FullUpdates.{FullUpdate};
ghost use Rattle.full_laws.specs.FullActions.{Admits, Delivers, Grants, MayHappenFull, Sends, Updates};
ghost use Rattle.full_laws.specs.FullWorlds.{FullWorld};
ghost use Rattle.full_cluster.specs.FullClusters.{HasApplied, IsCluster, IsClusterFor, IsClusterOf, IsSettingOf};

use crate::{Division, FullMachine, FullQueues, FullTerms, FullTickets};
use full_scope::FullProgram;
use gl_base::{MachineNo, Refused, ScopeId, Vertex};
use std::alloc::Global;

/// The machines of a run by their numbers, the links from each to all others, the next ticket, and
/// how many tickets are left.
#[derive(Drop)]
pub struct FullCluster {
    pub(crate) machines: Vec<FullMachine>,
    pub(crate) links: Vec<FullQueues>,
    pub(crate) next: u64,
    pub(crate) left: u64,
}

impl FullCluster {
    /// A machine admits a scope of one of its vertices. `NotNow` comes exactly where the cluster of
    /// the model may not make this event, and after an error the cluster is unchanged.
    pub fn admit(
        &mut self,
        alloc: Global,
        division: &Division<'_>,
        terms: FullTerms,
        machine: MachineNo,
        v: Vertex,
    ) -> Result<(), Refused>
        requires cluster { IsCluster division.now terms self.old }
        ensures cluster { IsCluster division.now terms self.new }
        ensures applied { (st : Setting) (p : FullUpdate) (w : FullWorld) →
            IsSettingOf st division.now terms → IsClusterOf st p w self.old →
            OnOk result (HasApplied st p w (Admits machine.0 v.0) self.new) }
        ensures not_now { (st : Setting) (p : FullUpdate) (w : FullWorld) →
            IsSettingOf st division.now terms → IsClusterOf st p w self.old →
            IsErrOf result Refused.NotNow → MayHappenFull st w (Admits machine.0 v.0) → ⊥ }
        ensures no_memory { (st : Setting) (p : FullUpdate) (w : FullWorld) →
            IsSettingOf st division.now terms → IsClusterOf st p w self.old →
            IsErrOf result Refused.NoMemory → MayHappenFull st w (Admits machine.0 v.0) }
        ensures unchanged { (st : Setting) (p : FullUpdate) (w : FullWorld) →
            IsSettingOf st division.now terms → IsClusterOf st p w self.old →
            OnErr result (IsClusterOf st p w self.new) }
    {
        let place = machine.0 as usize;
        if place >= self.machines.len() {
            return Err(Refused::NotNow);
        }
        self.machines[place].admit(alloc, division, terms, v)
    }

    /// The first scope that waits for the lock of a machine's vertex gets it. `NotNow` comes exactly
    /// where the cluster of the model may not make this event, and after an error the cluster is
    /// unchanged.
    pub fn grant(
        &mut self,
        division: &Division<'_>,
        terms: FullTerms,
        machine: MachineNo,
        x: Vertex,
    ) -> Result<(), Refused>
        requires cluster { IsCluster division.now terms self.old }
        ensures cluster { IsCluster division.now terms self.new }
        ensures applied { (st : Setting) (p : FullUpdate) (w : FullWorld) →
            IsSettingOf st division.now terms → IsClusterOf st p w self.old →
            OnOk result (HasApplied st p w (Grants machine.0 x.0) self.new) }
        ensures not_now { (st : Setting) (p : FullUpdate) (w : FullWorld) →
            IsSettingOf st division.now terms → IsClusterOf st p w self.old →
            IsErrOf result Refused.NotNow → MayHappenFull st w (Grants machine.0 x.0) → ⊥ }
        ensures no_memory { (st : Setting) (p : FullUpdate) (w : FullWorld) →
            IsSettingOf st division.now terms → IsClusterOf st p w self.old →
            IsErrOf result Refused.NoMemory → MayHappenFull st w (Grants machine.0 x.0) }
        ensures unchanged { (st : Setting) (p : FullUpdate) (w : FullWorld) →
            IsSettingOf st division.now terms → IsClusterOf st p w self.old →
            OnErr result (IsClusterOf st p w self.new) }
    {
        if x.0 >= division.graph.n() || division.owner_of(x).0 != machine.0 {
            return Err(Refused::NotNow);
        }
        let place = machine.0 as usize;
        if place >= self.machines.len() {
            return Err(Refused::NotNow);
        }
        self.machines[place].grant(division, x)
    }

    /// The first message of a machine's outbox for another goes to the end of the link there.
    /// `NotNow` comes exactly where the cluster of the model may not make this event, and after an
    /// error the cluster is unchanged.
    pub fn send(
        &mut self,
        division: &Division<'_>,
        terms: FullTerms,
        from: MachineNo,
        to: MachineNo,
    ) -> Result<(), Refused>
        requires cluster { IsCluster division.now terms self.old }
        ensures cluster { IsCluster division.now terms self.new }
        ensures applied { (st : Setting) (p : FullUpdate) (w : FullWorld) →
            IsSettingOf st division.now terms → IsClusterOf st p w self.old →
            OnOk result (HasApplied st p w (Sends from.0 to.0) self.new) }
        ensures not_now { (st : Setting) (p : FullUpdate) (w : FullWorld) →
            IsSettingOf st division.now terms → IsClusterOf st p w self.old →
            IsErrOf result Refused.NotNow → MayHappenFull st w (Sends from.0 to.0) → ⊥ }
        ensures no_memory { (st : Setting) (p : FullUpdate) (w : FullWorld) →
            IsSettingOf st division.now terms → IsClusterOf st p w self.old →
            IsErrOf result Refused.NoMemory → MayHappenFull st w (Sends from.0 to.0) }
        ensures unchanged { (st : Setting) (p : FullUpdate) (w : FullWorld) →
            IsSettingOf st division.now terms → IsClusterOf st p w self.old →
            OnErr result (IsClusterOf st p w self.new) }
    {
        let place = from.0 as usize;
        if place >= self.machines.len() {
            return Err(Refused::NotNow);
        }
        if place >= self.links.len() {
            return Err(Refused::NotNow);
        }
        self.machines[place].send(&mut self.links[place], to)
    }

    /// The first message of a link is received. `NotNow` comes exactly where the cluster of the model
    /// may not make this event, and after an error the cluster is unchanged.
    pub fn deliver(
        &mut self,
        alloc: Global,
        division: &Division<'_>,
        terms: FullTerms,
        from: MachineNo,
        to: MachineNo,
    ) -> Result<(), Refused>
        requires cluster { IsCluster division.now terms self.old }
        ensures cluster { IsCluster division.now terms self.new }
        ensures applied { (st : Setting) (p : FullUpdate) (w : FullWorld) →
            IsSettingOf st division.now terms → IsClusterOf st p w self.old →
            OnOk result (HasApplied st p w (Delivers from.0 to.0) self.new) }
        ensures not_now { (st : Setting) (p : FullUpdate) (w : FullWorld) →
            IsSettingOf st division.now terms → IsClusterOf st p w self.old →
            IsErrOf result Refused.NotNow → MayHappenFull st w (Delivers from.0 to.0) → ⊥ }
        ensures no_memory { (st : Setting) (p : FullUpdate) (w : FullWorld) →
            IsSettingOf st division.now terms → IsClusterOf st p w self.old →
            IsErrOf result Refused.NoMemory → MayHappenFull st w (Delivers from.0 to.0) }
        ensures unchanged { (st : Setting) (p : FullUpdate) (w : FullWorld) →
            IsSettingOf st division.now terms → IsClusterOf st p w self.old →
            OnErr result (IsClusterOf st p w self.new) }
    {
        let source = from.0 as usize;
        let place = to.0 as usize;
        if place >= self.machines.len() {
            return Err(Refused::NotNow);
        }
        if source >= self.links.len() {
            return Err(Refused::NotNow);
        }
        self.machines[place].deliver(alloc, division, &mut self.links[source])
    }

    /// The update of a scope is made at its home, under the next ticket. `NotNow` comes exactly where
    /// the cluster of the model may not make this event, and after an error the cluster is unchanged.
    pub fn update<P: FullProgram>(
        &mut self,
        alloc: Global,
        division: &Division<'_>,
        terms: FullTerms,
        program: &P,
        scope: ScopeId,
    ) -> Result<(), Refused>
        requires cluster { IsClusterFor division.now terms (P.meaning program.now) self.old }
        ensures cluster { IsClusterFor division.now terms (P.meaning program.now) self.new }
        ensures applied { (st : Setting) (w : FullWorld) → IsSettingOf st division.now terms →
            IsClusterOf st (P.meaning program.now) w self.old →
            OnOk result (HasApplied st (P.meaning program.now) w (Updates scope) self.new) }
        ensures not_now { (st : Setting) (p : FullUpdate) (w : FullWorld) →
            IsSettingOf st division.now terms → IsClusterOf st p w self.old →
            IsErrOf result Refused.NotNow → MayHappenFull st w (Updates scope) → ⊥ }
        ensures no_memory { (st : Setting) (p : FullUpdate) (w : FullWorld) →
            IsSettingOf st division.now terms → IsClusterOf st p w self.old →
            IsErrOf result Refused.NoMemory → MayHappenFull st w (Updates scope) }
        ensures unchanged { (st : Setting) (p : FullUpdate) (w : FullWorld) →
            IsSettingOf st division.now terms → IsClusterOf st p w self.old →
            OnErr result (IsClusterOf st p w self.new) }
    {
        let place = scope.home.0 as usize;
        if place >= self.machines.len() {
            return Err(Refused::NotNow);
        }
        let tickets = FullTickets {
            next: self.next,
            left: self.left,
        };
        match self.machines[place].update(alloc, division, terms, program, scope, tickets) {
            Ok(()) => {
                self.draw();
                Ok(())
            }
            Err(refused) => Err(refused),
        }
    }

    /// The next ticket is drawn.
    fn draw(&mut self)
        requires some { 0 < self.old.left }
        requires few { self.old.next + self.old.left < 2 ^ 64 }
        ensures { self.new ≡ record self.old {
          next = self.old.next + 1;
          left = self.old.left - 1;
        } }
    {
        self.next += 1;
        self.left -= 1;
    }
}
