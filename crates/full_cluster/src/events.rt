//! What may happen in a cluster.
ghost use Rattle.std.specs.Prelude.{◌≡◌, OnOk, OnErr, IsErrOf};
ghost use Rattle.cluster_laws.specs.cluster_core.Settings.{Setting};
ghost use Rattle.full_scope.specs.FullUpdates.{FullUpdate};
ghost use Rattle.full_laws.specs.FullActions.{MayHappenFull};
ghost use Rattle.full_laws.specs.FullWorlds.{FullWorld};
ghost use Rattle.full_cluster.specs.FullClusters.{HasApplied, IsClusterFor, IsClusterOf, IsSettingOf};
ghost use Rattle.full_cluster.specs.FullEvents.{action_of};

use crate::{Division, FullCluster, FullTerms};
use full_scope::FullProgram;
use gl_base::{MachineNo, Refused, ScopeId, Vertex};
use std::alloc::Global;

/// What may happen in a cluster.
#[derive(Clone, Copy)]
pub enum FullEvent {
    /// A machine admits a scope of one of its vertices.
    Admit { machine: MachineNo, vertex: Vertex },
    /// The first scope that waits for the lock of a machine's vertex gets it.
    Grant { machine: MachineNo, vertex: Vertex },
    /// The first message of an outbox goes to the link.
    Send { from: MachineNo, to: MachineNo },
    /// The first message of a link is received.
    Deliver { from: MachineNo, to: MachineNo },
    /// The update of a scope is made at its home.
    Update { scope: ScopeId },
}

impl FullCluster {
    /// Makes an event. `NotNow` comes exactly where the cluster of the model may not make it, and
    /// after an error the cluster is unchanged.
    pub fn apply<P: FullProgram>(
        &mut self,
        alloc: Global,
        division: &Division<'_>,
        terms: FullTerms,
        program: &P,
        event: FullEvent,
    ) -> Result<(), Refused>
        requires cluster { IsClusterFor division.now terms (P.meaning program.now) self.old }
        ensures cluster { IsClusterFor division.now terms (P.meaning program.now) self.new }
        ensures applied { (st : Setting) (w : FullWorld) → IsSettingOf st division.now terms →
            IsClusterOf st (P.meaning program.now) w self.old →
            OnOk result (HasApplied st (P.meaning program.now) w (action_of event) self.new) }
        ensures not_now { (st : Setting) (p : FullUpdate) (w : FullWorld) →
            IsSettingOf st division.now terms → IsClusterOf st p w self.old →
            IsErrOf result Refused.NotNow → MayHappenFull st w (action_of event) → ⊥ }
        ensures no_memory { (st : Setting) (p : FullUpdate) (w : FullWorld) →
            IsSettingOf st division.now terms → IsClusterOf st p w self.old →
            IsErrOf result Refused.NoMemory → MayHappenFull st w (action_of event) }
        ensures unchanged { (st : Setting) (p : FullUpdate) (w : FullWorld) →
            IsSettingOf st division.now terms → IsClusterOf st p w self.old →
            OnErr result (IsClusterOf st p w self.new) }
    {
        match event {
            FullEvent::Admit { machine, vertex } => {
                self.admit(alloc, division, terms, machine, vertex)
            }
            FullEvent::Grant { machine, vertex } => self.grant(division, terms, machine, vertex),
            FullEvent::Send { from, to } => self.send(division, terms, from, to),
            FullEvent::Deliver { from, to } => self.deliver(alloc, division, terms, from, to),
            FullEvent::Update { scope } => self.update(alloc, division, terms, program, scope),
        }
    }
}
