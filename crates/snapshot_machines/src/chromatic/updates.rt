//! Updates in a step.
ghost use Rattle.std.specs.Prelude.{◌≡◌, true, false, None, IfNone, IfSome, OnOk, OnErr, IsErrOf};
ghost use Rattle.gl_base.specs.declared.scopes.ScopeId.{ScopeId};
ghost use Rattle.coordinator.specs.snap_update.Snaps.{IsSameButRoom, asked_behind, with_asking};
ghost use Rattle.snapshot_machines.specs.chromatic.Machines.{IsInSameStep, part_of_steps};
ghost use Rattle.snapshot_machines.specs.chromatic.Updating.{HasLogged, HasRunOf, HasUpdatedInColour, MayUpdate};
ghost use Rattle.scope_locks.specs.scope_pipe.Pipes.{flight_at};
ghost use Rattle.snapshot_machines.specs.saving.Machines.{IsBetweenCalls};

use crate::chromatic::machines::ColorSnapMachine;
use gl_base::{Refused, ScopeId, Vertex};
use machine_core::color_parts::{Which, enlist_near};
use machine_core::machine_parts::Core;
use update_api::Program;

impl<P: Program> ColorSnapMachine<P> {
    /// Makes the update of a scope that is in flight here, whose vertex is a task and not pending,
    /// and tells the other machines of the scope. It is logged under the ticket, and kept before
    /// the marks where its vertex has no mark of the snapshot that is known, else behind them. The
    /// vertices of this machine that it wakes stand in line by their colours.
    pub fn update(&mut self, scope: ScopeId, ticket: u64) -> Result<(), Refused>
        ensures updated { OnOk result
            (HasUpdatedInColour (P.meaning self.old.program) self.old self.new scope ticket) }
        ensures run { OnOk result (HasRunOf self.old.core self.new.core scope) }
        ensures logged { OnOk result
            (HasLogged self.old.core self.old.kept self.new.kept scope ticket) }
        ensures not_now { IsErrOf result Refused.NotNow →
            MayUpdate scope (part_of_steps self.old) 1 → ⊥ }
        ensures no_memory { IsErrOf result Refused.NoMemory →
            MayUpdate scope (part_of_steps self.old) 1 }
        ensures unchanged { OnErr result (part_of_steps self.new ≡ part_of_steps self.old) }
        ensures same { OnErr result (IsSameButRoom self.old.kept self.new.kept) }
        ensures tasks { OnErr result (self.new.core.numbers.tasks ≡ self.old.core.numbers.tasks) }
        ensures local { let old = self.old.core.numbers.local in
            let new = self.new.core.numbers.local in
            new ≡ record old { kept = new.kept; rows = new.rows; numbers = new.numbers } }
        ensures step { IsInSameStep self.old self.new }
    {
        let before = self.machine.core();
        let Some(centre) = centre_of(before, scope) else {
            return Err(Refused::NotNow);
        };
        match self.machine.update(scope, ticket) {
            Ok(()) => {
                let after = self.machine.core();
                enlist_near(&mut self.lines, &after.numbers, centre, Which::Tasks);
                Ok(())
            }
            Err(refused) => Err(refused),
        }
    }

    /// Whether a scope may make its update now.
    pub fn can_update(&self, scope: ScopeId) -> bool
        ensures yes { result ≡ true → MayUpdate scope (part_of_steps self.now) 1 }
        ensures no { result ≡ false → MayUpdate scope (part_of_steps self.now) 1 → ⊥ }
        ensures order { IsBetweenCalls self.now.core self.now.kept }
    {
        self.machine.can_update(scope)
    }

    /// A scope of this home that may make its update now; `None` exactly where none may.
    pub fn next_update(&self) -> Option<ScopeId>
        ensures some { IfSome result (λ s. MayUpdate s (part_of_steps self.now) 1) }
        ensures home { IfSome result (λ s. s.home ≡ self.now.core.numbers.local.me) }
        ensures none { IfNone result ((s : ScopeId) → MayUpdate s (part_of_steps self.now) 1 → ⊥) }
    {
        self.machine.next_update()
    }

    /// The last acknowledged snapshot that is known, where one behind it is to be asked for: so
    /// many updates are outside, and it wasn't asked for yet.
    pub fn ask(&mut self, half: u64) -> Option<u32>
        ensures behind { result ≡ asked_behind half self.old.kept }
        ensures rest { self.new ≡ record self.old { kept = with_asking half self.old.kept } }
    {
        self.machine.ask(half)
    }
}

/// The vertex of a scope that is in flight and ready.
pub(crate) fn centre_of(core: &Core, scope: ScopeId) -> Option<Vertex>
    ensures some { IfSome result (λ v. flight_at core.now.pipe scope ≡ Some v) }
    ensures none { result ≡ None → flight_at core.now.pipe scope ≡ None }
{
    if core.pipe.is_in_flight(scope) {
        Some(core.pipe.centre(scope))
    } else {
        None
    }
}
