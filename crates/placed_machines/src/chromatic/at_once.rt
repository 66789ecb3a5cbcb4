//! Updates at once.
ghost use Rattle.std.specs.Prelude.{◌≡◌, IfOk, OnErr, IsErrOf};
ghost use Rattle.coordinator.specs.machine_api.AtOnce.{CanNotUpdateAtOnce, CanUpdateAtOnce, HasUpdatedAtOnce};
ghost use Rattle.coordinator.specs.machine_api.Promises.{StandsStill};
ghost use Rattle.placed_machines.specs.chromatic.Machines.{IsChromaticMachineOf};

use crate::chromatic::machines::ChromaticMachine;
use gl_base::{Refused, Vertex};
use update_api::Program;

impl<P: Program> ChromaticMachine<P> {
    /// Makes the update of the vertex that would be admitted next, where it is not pending and its
    /// scope has this machine alone; where half of the window is outside the last snapshot, the
    /// coordinator is asked for the next one; and where the step is done with it, a wave that is
    /// held is answered.
    pub(crate) fn update_pick(&mut self, ticket: u64) -> Result<Vertex, Refused>
        ensures updated { IfOk result (λ v.
            HasUpdatedAtOnce (IsChromaticMachineOf P.meaning) self.old v.0 ticket self.new) }
        ensures not_now { IsErrOf result Refused.NotNow →
            CanNotUpdateAtOnce (IsChromaticMachineOf P.meaning) self.old }
        ensures no_memory { IsErrOf result Refused.NoMemory →
            CanUpdateAtOnce (IsChromaticMachineOf P.meaning) self.old }
        ensures unchanged { OnErr result
            (StandsStill (IsChromaticMachineOf P.meaning) self.old self.new) }
    {
        let prepared = self.prepare(2);
        if prepared.is_err() {
            return Err(self.machine.refusal_at_once());
        }
        match self.machine.update_at_once(ticket) {
            Ok(vertex) => {
                self.ask();
                self.prompt();
                Ok(vertex)
            }
            Err(refused) => Err(refused),
        }
    }
}
