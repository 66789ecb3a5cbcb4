//! Updates at once in a step.
ghost use Rattle.std.specs.Prelude.{◌≡◌, IfNone, IfOk, IfSome, OnErr, OnOk, IsErrOf};
ghost use Rattle.coordinator.specs.snap_update.Snaps.{IsSameButRoom};
ghost use Rattle.snapshot_machines.specs.chromatic.AtOnce.{CanUpdateByColour, HasLoggedAtOnce, HasNoneByColour, HasRunAtOnce, HasUpdatedByColour};
ghost use Rattle.snapshot_machines.specs.chromatic.Machines.{IsInSameStep, part_of_steps};
ghost use Rattle.snapshot_machines.specs.chromatic.Inner.Picking.{IsFoundInStep};
ghost use Rattle.snapshot_machines.specs.saving.Machines.{IsBetweenCalls};

use crate::chromatic::machines::ColorSnapMachine;
use gl_base::{NoMemory, Refused, Vertex};
use machine_core::machine_at_once::Found;
use update_api::Program;

impl<P: Program> ColorSnapMachine<P> {
    /// Updates the vertex that would be admitted next, where the step goes on here, the vertex is
    /// not pending, and its scope has this machine alone: as if a scope of it were admitted and
    /// made its update. It is logged under the ticket, and kept before the marks where its vertex
    /// has no mark of the snapshot that is known, else behind them. The vertices that it wakes
    /// stand in line by their colours.
    pub fn update_at_once(&mut self, ticket: u64) -> Result<Vertex, Refused>
        ensures updated { IfOk result (λ v.
            HasUpdatedByColour (P.meaning self.old.program) self.old self.new v ticket) }
        ensures run { OnOk result
            (HasRunAtOnce self.old.core.numbers.tasks self.new.core.numbers.tasks) }
        ensures logged { IfOk result (λ v.
            HasLoggedAtOnce self.old.core self.old.kept self.new.kept v ticket) }
        ensures not_now { IsErrOf result Refused.NotNow → HasNoneByColour self.old }
        ensures no_memory { IsErrOf result Refused.NoMemory → CanUpdateByColour self.old }
        ensures unchanged { OnErr result (part_of_steps self.new ≡ part_of_steps self.old) }
        ensures same { OnErr result (IsSameButRoom self.old.kept self.new.kept) }
        ensures tasks { OnErr result (self.new.core.numbers.tasks ≡ self.old.core.numbers.tasks) }
        ensures local { let old = self.old.core.numbers.local in
            let new = self.new.core.numbers.local in
            new ≡ record old { kept = new.kept; rows = new.rows; numbers = new.numbers } }
        ensures step { IsInSameStep self.old self.new }
        ensures order { IsBetweenCalls self.old.core self.old.kept }
    {
        let Some(found) = self.find_at_once() else {
            return Err(Refused::NotNow);
        };
        match self.update_found(found, ticket) {
            Ok(()) => Ok(found.vertex),
            Err(NoMemory) => Err(Refused::NoMemory),
        }
    }

    /// What an update at once is refused with, where memory is wanting for what is kept beside it.
    pub fn refusal_at_once(&self) -> Refused
        ensures not_now { result ≡ Refused.NotNow → HasNoneByColour self.now }
        ensures no_memory { result ≡ Refused.NoMemory → CanUpdateByColour self.now }
        ensures order { IsBetweenCalls self.now.core self.now.kept }
    {
        match self.find_at_once() {
            Some(_) => Refused::NoMemory,
            None => Refused::NotNow,
        }
    }

    /// The vertex that would be admitted next, where it may be updated at once.
    pub(crate) fn find_at_once(&self) -> Option<Found>
        ensures found { IfSome result (λ f. IsFoundInStep self.now f) }
        ensures none { IfNone result (HasNoneByColour self.now) }
        ensures order { IsBetweenCalls self.now.core self.now.kept }
    {
        let core = self.machine.core();
        if self.closed {
            return None;
        }
        let pick = self.due()?;
        let vertex = core.by_place[pick.vertex.0 as usize];
        if pick.snapshot {
            return None;
        }
        if core.numbers.local.parts(vertex).len() != 1 {
            return None;
        }
        Some(Found {
            place: pick.vertex,
            vertex,
        })
    }
}
