//! Admissions in a step.
ghost use Rattle.std.specs.Prelude.{◌≡◌, IfNone, IfOk, IfSome, OnErr, IsErrOf};
ghost use Rattle.snapshot_machines.specs.chromatic.Admitting.{CanAdmitByColour, HasAdmittedByColour, MayAdmitNoneByColour, next_id};
ghost use Rattle.snapshot_machines.specs.chromatic.Machines.{IsInSameStep};
ghost use Rattle.snapshot_machines.specs.saving.Machines.{IsBetweenCalls};
ghost use Rattle.snapshot_machines.specs.chromatic.Inner.Picking.{IsDueInStep, IsNoneDueInStep};

use crate::chromatic::machines::ColorSnapMachine;
use gl_base::{NoMemory, Refused, ScopeId};
use task_sets::task_sched::Pick;
use update_api::Program;

impl<P: Program> ColorSnapMachine<P> {
    /// Admits a scope of a vertex of the step's colour, where the step goes on here: of one that is
    /// pending, for its snapshot update, and where there is none of a task, where the window has
    /// room. It is ready at once. There is no memory for it where no serial is left, or as many
    /// scopes are in flight as may be.
    pub fn admit(&mut self) -> Result<ScopeId, Refused>
        ensures scope { IfOk result (λ s. s ≡ next_id self.old.core.pipe) }
        ensures admitted { IfOk result (λ s. HasAdmittedByColour self.old self.new) }
        ensures not_now { IsErrOf result Refused.NotNow → MayAdmitNoneByColour self.old }
        ensures no_memory { IsErrOf result Refused.NoMemory → CanAdmitByColour self.old }
        ensures unchanged { OnErr result (self.new ≡ self.old) }
        ensures kept { self.new.kept ≡ self.old.kept }
        ensures step { IsInSameStep self.old self.new }
    {
        if self.closed {
            return Err(Refused::NotNow);
        }
        let Some(pick) = self.due() else {
            return Err(Refused::NotNow);
        };
        match self.machine.admit_in_step(pick.vertex, pick.snapshot) {
            Ok(scope) => {
                self.lines.remove(pick.vertex);
                self.asked.remove(pick.vertex);
                Ok(scope)
            }
            Err(NoMemory) => Err(Refused::NoMemory),
        }
    }

    /// The place of a vertex of the step's colour that may be admitted, and whether for its
    /// snapshot update; `None` exactly where there is none. It looks at no vertex of another
    /// colour.
    pub(crate) fn due(&self) -> Option<Pick>
        ensures some { IfSome result (λ pick. IsDueInStep self.now pick) }
        ensures none { IfNone result (IsNoneDueInStep self.now) }
        ensures order { IfNone result (IsBetweenCalls self.now.core self.now.kept) }
    {
        if let Some(vertex) = self.asked.first(self.colour) {
            return Some(Pick {
                vertex,
                snapshot: true,
            });
        }
        if !self.machine.core().numbers.tasks.has_room() {
            return None;
        }
        let vertex = self.lines.first(self.colour)?;
        Some(Pick {
            vertex,
            snapshot: false,
        })
    }
}
