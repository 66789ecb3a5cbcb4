//! How scopes are admitted and go on.
ghost use Rattle.std.specs.Prelude.{◌≡◌, IfNone, IfSome, OnOk, OnErr, IsErrOf};
ghost use Rattle.coordinator.specs.machine_api.Promises.{Grant, CanAdmit, CanDo, CanGrantNone, CanNotAdmit, CanNotDo, HasAdmittedSome, HasDone, StandsStill};
ghost use Rattle.snapshot_machines.specs.locking.Machines.{IsLockingMachineOf};

use crate::locking::machines::LockingMachine;
use gl_base::{Refused, Vertex};
use update_api::Program;

impl<P: Program> LockingMachine<P> {
    /// A scope of a vertex that is pending, or that is a task where the window has room, sets out
    /// for its locks.
    pub(crate) fn admit_one(&mut self) -> Result<(), Refused>
        ensures admitted { OnOk result
            (HasAdmittedSome (IsLockingMachineOf P.meaning) self.old self.new) }
        ensures not_now { IsErrOf result Refused.NotNow →
            CanNotAdmit (IsLockingMachineOf P.meaning) self.old }
        ensures no_memory { IsErrOf result Refused.NoMemory →
            CanAdmit (IsLockingMachineOf P.meaning) self.old }
        ensures unchanged { OnErr result
            (StandsStill (IsLockingMachineOf P.meaning) self.old self.new) }
    {
        let _plans = self.machine.core().numbers.tasks.plans();
        if let Err(refused) = self.machine.admit() {
            return Err(refused);
        }
        Ok(())
    }

    /// The first that waits for the lock of an own vertex holds it, and goes on.
    pub(crate) fn grant_first(&mut self, x: Vertex) -> Result<(), Refused>
        ensures granted { OnOk result
            (HasDone (IsLockingMachineOf P.meaning) self.old (Grant x.0) self.new) }
        ensures not_now { IsErrOf result Refused.NotNow →
            CanNotDo (IsLockingMachineOf P.meaning) self.old (Grant x.0) }
        ensures no_memory { IsErrOf result Refused.NoMemory →
            CanDo (IsLockingMachineOf P.meaning) self.old (Grant x.0) }
        ensures unchanged { OnErr result
            (StandsStill (IsLockingMachineOf P.meaning) self.old self.new) }
    {
        if let Err(refused) = self.machine.grant(x) {
            return Err(refused);
        }
        Ok(())
    }

    /// An own vertex whose lock may be granted now; `None` exactly where no lock may be.
    pub(crate) fn next_lock(&mut self) -> Option<Vertex>
        ensures some { IfSome result (λ x.
            CanDo (IsLockingMachineOf P.meaning) self.old (Grant x.0)) }
        ensures none { IfNone result (CanGrantNone (IsLockingMachineOf P.meaning) self.old) }
        ensures unchanged { StandsStill (IsLockingMachineOf P.meaning) self.old self.new }
    {
        self.machine.next_grant()
    }
}
