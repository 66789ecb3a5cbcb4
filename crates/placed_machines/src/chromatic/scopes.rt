//! How scopes are admitted. No lock is granted: scopes take none.
ghost use Rattle.std.specs.Prelude.{◌≡◌, OnOk, OnErr, IsErrOf};
ghost use Rattle.coordinator.specs.machine_api.Promises.{CanAdmit, CanGrantNone, CanNotAdmit, HasAdmittedSome, StandsStill};
ghost use Rattle.placed_machines.specs.chromatic.Machines.{IsChromaticMachineOf};

use crate::chromatic::machines::ChromaticMachine;
use gl_base::Refused;
use update_api::Program;

impl<P: Program> ChromaticMachine<P> {
    /// A scope of a vertex of the step's colour is ready: of one that is pending, or of a task
    /// where the window has room. A wave that is held waits on, as the scope is in flight now.
    pub(crate) fn admit_one(&mut self) -> Result<(), Refused>
        ensures admitted { OnOk result
            (HasAdmittedSome (IsChromaticMachineOf P.meaning) self.old self.new) }
        ensures not_now { IsErrOf result Refused.NotNow →
            CanNotAdmit (IsChromaticMachineOf P.meaning) self.old }
        ensures no_memory { IsErrOf result Refused.NoMemory →
            CanAdmit (IsChromaticMachineOf P.meaning) self.old }
        ensures unchanged { OnErr result
            (StandsStill (IsChromaticMachineOf P.meaning) self.old self.new) }
    {
        let _plans = self.machine.core().numbers.tasks.plans();
        if let Err(refused) = self.machine.admit() {
            return Err(refused);
        }
        Ok(())
    }
}
