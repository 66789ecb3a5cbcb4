//! How scopes are admitted and go on. What is kept for snapshots stays as it is.
ghost use Rattle.std.specs.Prelude.{◌≡◌, ◌↔◌, ℕ, ◌<◌, true, false, IfOk, IfErr, IfSome, IfNone, IsOk, OnOk, OnErr, IsErrOf};
ghost use Rattle.machine_core.specs.machine_scopes.Admitting.{CanAdmitPick, HasAdmittedPick, KeepsPlans, MayAdmitNone, next_id};
ghost use Rattle.machine_core.specs.machine_scopes.Asking.{AreMachinesFor, Ask, CanBecomeReady, HasOnlyMadeRoom, HasReceivedMessage, IsNewAt, Ready, come, machine_numbers};
ghost use Rattle.machine_core.specs.machine_scopes.Granting.{HasGrantedInTurn, HasGrantedLock, MayGrantLock, MayNotGrantLock, WaitsFirst, WantedNext};
ghost use Rattle.machine_core.specs.step_scopes.Admitting.{CanTake, HasAdmittedInStep, HasPlaceInFlight};
ghost use Rattle.snapshot_machines.specs.saving.Machines.{IsBetweenCalls, IsOrderly, SameSettings, part_of};

use crate::saving::machines::SnapMachine;
use gl_base::{MachineNo, NoMemory, Refused, ScopeId, Vertex};
use machine_core::machine_scopes::Moved;
use update_api::Program;

impl<P: Program> SnapMachine<P> {
    /// Admits a scope of the vertex that the tasks pick: a pending one before a task, and a task
    /// where the window has room.
    pub fn admit(&mut self) -> Result<ScopeId, Refused>
        ensures scope { IfOk result (λ s. s ≡ next_id self.old.core.pipe) }
        ensures admitted { IfOk result (λ s. HasAdmittedPick self.old.core self.new.core) }
        ensures not_now { IsErrOf result Refused.NotNow → MayAdmitNone self.old.core }
        ensures no_memory { IsErrOf result Refused.NoMemory → CanAdmitPick self.old.core }
        ensures unchanged { OnErr result (part_of self.new.core ≡ part_of self.old.core) }
        ensures plans { OnErr result (KeepsPlans self.old.core self.new.core) }
        ensures local { self.new.core.numbers.local ≡ self.old.core.numbers.local }
        ensures kept { self.new.kept ≡ self.old.kept }
        ensures program { self.new.program ≡ self.old.program }
        ensures terms { self.new.core.terms ≡ self.old.core.terms }
        ensures settings { SameSettings self.old.core self.new.core }
        ensures order { IsBetweenCalls self.old.core self.old.kept }
    {
        machine_core::machine_scopes::admit(self.alloc, &mut self.core)
    }

    /// Admits a scope of the own vertex at this place, for its snapshot update or else for an
    /// update, where scopes take no locks: it is ready at once. It takes no memory; there is none
    /// for it exactly where no serial is left, or as many scopes are in flight as may be.
    pub fn admit_in_step(&mut self, place: Vertex, snapshot: bool) -> Result<ScopeId, NoMemory>
        requires locks { self.old.core.terms.locks ≡ false }
        requires can { CanTake self.old.core.numbers.tasks (record {
          vertex = place;
          snapshot = snapshot;
        }) }
        ensures room { IsOk result ↔ HasPlaceInFlight self.old.core }
        ensures scope { IfOk result (λ s. s ≡ next_id self.old.core.pipe) }
        ensures admitted { IfOk result (λ s.
            HasAdmittedInStep self.old.core self.new.core place snapshot) }
        ensures unchanged { OnErr result (self.new ≡ self.old) }
        ensures rest { self.new.core ≡ record self.old.core {
          numbers = self.new.core.numbers;
          pipe = self.new.core.pipe;
        } }
        ensures kept { self.new.kept ≡ self.old.kept }
        ensures program { self.new.program ≡ self.old.program }
        ensures settings { SameSettings self.old.core self.new.core }
        ensures order { IsBetweenCalls self.old.core self.old.kept }
    {
        machine_core::step_scopes::admit_in_step(&mut self.core, place, snapshot)
    }

    /// The first that waits for the lock of x holds it and goes on, where it goes together with
    /// each holder.
    pub fn grant(&mut self, x: Vertex) -> Result<Moved, Refused>
        ensures granted { IfOk result (λ moved. MayGrantLock self.old.core x.0 ×
            HasGrantedLock self.old.core self.new.core x.0) }
        ensures scope { IfOk result (λ moved. WaitsFirst self.old.core x.0 moved.scope) }
        ensures next { IfOk result (λ moved. WantedNext self.old.core moved.scope moved.next) }
        ensures not_now { IsErrOf result Refused.NotNow → MayNotGrantLock self.old.core x.0 }
        ensures no_memory { IsErrOf result Refused.NoMemory → MayGrantLock self.old.core x.0 }
        ensures unchanged { OnErr result (part_of self.new.core ≡ part_of self.old.core) }
        ensures numbers { self.new.core.numbers ≡ self.old.core.numbers }
        ensures kept { self.new.kept ≡ self.old.kept }
        ensures program { self.new.program ≡ self.old.program }
        ensures terms { self.new.core.terms ≡ self.old.core.terms }
        ensures settings { SameSettings self.old.core self.new.core }
    {
        machine_core::machine_scopes::grant(&mut self.core, x)
    }

    /// The first that waits for the lock of x holds it, where it goes together with each holder,
    /// and goes on; and then it is granted one lock after another for which it asks here, where
    /// nobody else claims that.
    pub fn grant_in_turn(&mut self, x: Vertex) -> Result<ScopeId, Refused>
        ensures granted { IfOk result (λ scope.
            HasGrantedInTurn self.old.core self.new.core x.0) }
        ensures scope { IfOk result (λ scope. WaitsFirst self.old.core x.0 scope) }
        ensures not_now { IsErrOf result Refused.NotNow → MayNotGrantLock self.old.core x.0 }
        ensures no_memory { IsErrOf result Refused.NoMemory → MayGrantLock self.old.core x.0 }
        ensures unchanged { OnErr result (part_of self.new.core ≡ part_of self.old.core) }
        ensures numbers { self.new.core.numbers ≡ self.old.core.numbers }
        ensures kept { self.new.kept ≡ self.old.kept }
        ensures program { self.new.program ≡ self.old.program }
        ensures terms { self.new.core.terms ≡ self.old.core.terms }
        ensures settings { SameSettings self.old.core self.new.core }
    {
        machine_core::machine_scopes::grant_in_turn(&mut self.core, x)
    }

    /// A vertex whose lock may be granted, and `None` exactly where there is none. It takes no
    /// memory, and nothing changes.
    pub fn next_grant(&mut self) -> Option<Vertex>
        ensures some { IfSome result (λ x. MayGrantLock self.old.core x.0) }
        ensures none { IfNone result ((x : ℕ) → MayNotGrantLock self.old.core x) }
        ensures same { self.new ≡ self.old }
    {
        machine_core::machine_scopes::next_grant(&mut self.core)
    }

    /// The scope of this centre has come, and has the machines `rest` still to come. Scopes take
    /// locks at the machine. Where there is not enough memory, or as many scopes have come as may,
    /// `rest` comes back.
    pub fn receive_ask(
        &mut self,
        scope: ScopeId,
        centre: Vertex,
        rest: Vec<MachineNo>,
    ) -> Result<(), Vec<MachineNo>>
        requires locks { self.old.core.terms.locks ≡ true }
        requires is_new { IsOrderly self.old.core → IsNewAt self.old.core scope centre }
        requires machines { IsOrderly self.old.core →
            AreMachinesFor self.old.core scope rest.items }
        ensures place { OnOk result (come self.old.core.pipe < 4096) }
        ensures received { OnOk result
            (HasReceivedMessage self.old.core self.new.core
            (Ask scope centre.0 (machine_numbers rest.items))) }
        ensures back { IfErr result (λ same. same ≡ rest) }
        ensures unchanged { OnErr result (HasOnlyMadeRoom self.old.core self.new.core ×
            (part_of self.new.core ≡ part_of self.old.core)) }
        ensures numbers { self.new.core.numbers ≡ self.old.core.numbers }
        ensures kept { self.new.kept ≡ self.old.kept }
        ensures program { self.new.program ≡ self.old.program }
        ensures terms { self.new.core.terms ≡ self.old.core.terms }
        ensures settings { SameSettings self.old.core self.new.core }
    {
        machine_core::machine_scopes::receive_ask(self.alloc, &mut self.core, scope, centre, rest)
    }

    /// Word has come that a scope of this home has all its locks: it is ready. It takes no memory.
    pub fn receive_ready(&mut self, scope: ScopeId)
        requires { IsOrderly self.old.core → CanBecomeReady self.old.core scope }
        ensures received { HasReceivedMessage self.old.core self.new.core (Ready scope) }
        ensures numbers { self.new.core.numbers ≡ self.old.core.numbers }
        ensures kept { self.new.kept ≡ self.old.kept }
        ensures program { self.new.program ≡ self.old.program }
        ensures terms { self.new.core.terms ≡ self.old.core.terms }
        ensures settings { SameSettings self.old.core self.new.core }
    {
        machine_core::machine_scopes::receive_ready(&mut self.core, scope);
    }
}
