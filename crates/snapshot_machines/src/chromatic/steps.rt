//! Steps.
ghost use Rattle.std.specs.Prelude.{◌≡◌, true, false, OnOk, OnErr, IsErrOf};
ghost use Rattle.snapshot_machines.specs.chromatic.Machines.{IsSameColorSnap, part_of_steps};
ghost use Rattle.snapshot_machines.specs.chromatic.Steps.{HasShareDone, closes, steps_to};

use crate::chromatic::machines::ColorSnapMachine;
use gl_base::Refused;
use update_api::Program;

impl<P: Program> ColorSnapMachine<P> {
    /// The step of this colour begins here: from now on vertices of this colour are admitted, and
    /// no others. It takes no memory.
    pub fn step(&mut self, colour: u32)
        ensures begun { part_of_steps self.new ≡ steps_to colour (part_of_steps self.old) }
        ensures rest { self.new ≡ record self.old { colour = colour; closed = false } }
        ensures same { IsSameColorSnap self.old self.new }
    {
        self.colour = colour;
        self.closed = false;
    }

    /// Whether the machine's share of the step is done: the step is closed here, or no scope is in
    /// flight and none may be admitted.
    pub fn is_done(&self) -> bool
        ensures { HasShareDone self.now result }
    {
        if self.closed {
            return true;
        }
        if self.machine.core().pipe.flight_count() > 0 {
            return false;
        }
        self.due().is_none()
    }

    /// Nothing more is admitted in this step, where the machine's share of it is done. It takes no
    /// memory.
    pub fn close(&mut self) -> Result<(), Refused>
        ensures done { OnOk result (HasShareDone self.old true) }
        ensures closed { OnOk result (part_of_steps self.new ≡ closes (part_of_steps self.old)) }
        ensures not_now { IsErrOf result Refused.NotNow → HasShareDone self.old false }
        ensures memory { IsErrOf result Refused.NoMemory → ⊥ }
        ensures unchanged { OnErr result (self.new ≡ self.old) }
        ensures rest { self.new ≡ record self.old { closed = self.new.closed } }
        ensures same { IsSameColorSnap self.old self.new }
    {
        if !self.is_done() {
            return Err(Refused::NotNow);
        }
        self.closed = true;
        Ok(())
    }
}
