//! Updates.
ghost use Rattle.std.specs.Prelude.{◌≡◌, ◌<◌, Some, IfNone, IfSome, OnOk, OnErr, IsErrOf};
ghost use Rattle.coordinator.specs.machine_api.Promises.{Update, CanDo, CanNotDo, CanUpdate, CanUpdateNone, HasDone, StandsStill};
ghost use Rattle.placed_machines.specs.chromatic.Prompting.{HasWantedInSteps};
ghost use Rattle.placed_machines.specs.chromatic.Machines.{IsChromaticMachineOf};

use crate::chromatic::machines::ChromaticMachine;
use gl_base::{Refused, ScopeId};
use update_api::Program;
use wire::wire_msgs::Message;

impl<P: Program> ChromaticMachine<P> {
    /// Makes the update of a ready scope of this home, whose vertex is a task and not pending;
    /// where half of the window is outside the last snapshot, the coordinator is asked for the next
    /// one; and where the step is done with it, a wave that is held is answered.
    pub(crate) fn update_one(&mut self, scope: ScopeId, ticket: u64) -> Result<(), Refused>
        ensures updated { OnOk result
            (HasDone (IsChromaticMachineOf P.meaning) self.old (Update scope ticket) self.new) }
        ensures not_now { IsErrOf result Refused.NotNow →
            CanNotDo (IsChromaticMachineOf P.meaning) self.old (Update scope ticket) }
        ensures no_memory { IsErrOf result Refused.NoMemory →
            CanDo (IsChromaticMachineOf P.meaning) self.old (Update scope ticket) }
        ensures unchanged { OnErr result
            (StandsStill (IsChromaticMachineOf P.meaning) self.old self.new) }
    {
        if !self.machine.can_update(scope) {
            return Err(Refused::NotNow);
        }
        if self.prepare(2).is_err() {
            return Err(Refused::NoMemory);
        }
        match self.machine.update(scope, ticket) {
            Ok(()) => {
                self.ask();
                self.prompt();
                Ok(())
            }
            Err(refused) => Err(refused),
        }
    }

    /// A ready scope of this home whose update may be made now; `None` exactly where there is none.
    pub(crate) fn next_update_here(&self) -> Option<ScopeId>
        ensures some { IfSome result (CanUpdate (IsChromaticMachineOf P.meaning) self.now) }
        ensures none { IfNone result (CanUpdateNone (IsChromaticMachineOf P.meaning) self.now) }
    {
        self.machine.next_update()
    }

    /// Asks for a snapshot where there is a window, half of that is outside the last one, and none
    /// was asked for behind that yet. It takes no memory.
    pub(crate) fn ask(&mut self)
        requires { 0 < self.old.reports.room }
        ensures { HasWantedInSteps self.old self.new }
    {
        if let Some(window) = self.window {
            self.ask_within(window);
        }
    }

    /// The same, where this is the window.
    fn ask_within(&mut self, window: u32)
        requires room { 0 < self.old.reports.room }
        requires window { self.old.window ≡ Some window }
        ensures { HasWantedInSteps self.old self.new }
    {
        let half = (window as u64 + 1) / 2;
        if let Some(acknowledged) = self.machine.ask(half) {
            self.reports.put(Message::Want { acknowledged });
        }
    }
}
