//! Updates.
ghost use Rattle.std.specs.Prelude.{◌≡◌, ◌<◌, Some, IfNone, IfOk, IfSome, OnOk, OnErr, IsErrOf};
ghost use Rattle.coordinator.specs.machine_api.AtOnce.{CanNotUpdateAtOnce, CanUpdateAtOnce, HasUpdatedAtOnce};
ghost use Rattle.coordinator.specs.machine_api.Promises.{Update, CanDo, CanNotDo, CanUpdate, CanUpdateNone, HasDone, StandsStill};
ghost use Rattle.snapshot_machines.specs.locking.Asking.{HasWanted};
ghost use Rattle.snapshot_machines.specs.locking.Machines.{IsLockingMachineOf};

use crate::locking::machines::LockingMachine;
use gl_base::{Refused, ScopeId, Vertex};
use update_api::Program;
use wire::wire_msgs::Message;

impl<P: Program> LockingMachine<P> {
    /// Makes the update of a ready scope of this home, whose vertex is a task and not pending; and
    /// where half of the window is outside the last snapshot, the coordinator is asked for the next
    /// one.
    pub(crate) fn update_one(&mut self, scope: ScopeId, ticket: u64) -> Result<(), Refused>
        ensures updated { OnOk result
            (HasDone (IsLockingMachineOf P.meaning) self.old (Update scope ticket) self.new) }
        ensures not_now { IsErrOf result Refused.NotNow →
            CanNotDo (IsLockingMachineOf P.meaning) self.old (Update scope ticket) }
        ensures no_memory { IsErrOf result Refused.NoMemory →
            CanDo (IsLockingMachineOf P.meaning) self.old (Update scope ticket) }
        ensures unchanged { OnErr result
            (StandsStill (IsLockingMachineOf P.meaning) self.old self.new) }
    {
        if !self.machine.can_update(scope) {
            return Err(Refused::NotNow);
        }
        if self.reports.reserve().is_err() {
            return Err(Refused::NoMemory);
        }
        match self.machine.update(scope, ticket) {
            Ok(()) => {
                self.ask();
                Ok(())
            }
            Err(refused) => Err(refused),
        }
    }

    /// Makes the update of the vertex that the tasks pick, where it is not pending, its scope has
    /// this machine alone, and nobody holds or waits for a lock of it; and where half of the window
    /// is outside the last snapshot, the coordinator is asked for the next one.
    pub(crate) fn update_pick(&mut self, ticket: u64) -> Result<Vertex, Refused>
        ensures updated { IfOk result (λ v.
            HasUpdatedAtOnce (IsLockingMachineOf P.meaning) self.old v.0 ticket self.new) }
        ensures not_now { IsErrOf result Refused.NotNow →
            CanNotUpdateAtOnce (IsLockingMachineOf P.meaning) self.old }
        ensures no_memory { IsErrOf result Refused.NoMemory →
            CanUpdateAtOnce (IsLockingMachineOf P.meaning) self.old }
        ensures unchanged { OnErr result
            (StandsStill (IsLockingMachineOf P.meaning) self.old self.new) }
    {
        if self.reports.reserve().is_err() {
            return Err(self.machine.refusal_at_once());
        }
        match self.machine.update_at_once(ticket) {
            Ok(vertex) => {
                self.ask();
                Ok(vertex)
            }
            Err(refused) => Err(refused),
        }
    }

    /// A ready scope of this home whose update may be made now; `None` exactly where there is none.
    pub(crate) fn next_update_here(&self) -> Option<ScopeId>
        ensures some { IfSome result (CanUpdate (IsLockingMachineOf P.meaning) self.now) }
        ensures none { IfNone result (CanUpdateNone (IsLockingMachineOf P.meaning) self.now) }
    {
        self.machine.next_update()
    }

    /// Asks for a snapshot where there is a window, half of that is outside the last one, and none
    /// was asked for behind that yet. It takes no memory.
    pub(crate) fn ask(&mut self)
        requires { 0 < self.old.reports.room }
        ensures { HasWanted self.old self.new }
    {
        if let Some(window) = self.window {
            self.ask_within(window);
        }
    }

    /// The same, where this is the window.
    fn ask_within(&mut self, window: u32)
        requires room { 0 < self.old.reports.room }
        requires window { self.old.window ≡ Some window }
        ensures { HasWanted self.old self.new }
    {
        let half = (window as u64 + 1) / 2;
        if let Some(acknowledged) = self.machine.ask(half) {
            self.reports.put(Message::Want { acknowledged });
        }
    }
}
