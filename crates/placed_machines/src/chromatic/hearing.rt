//! What comes from the coordinator.
ghost use Rattle.std.specs.Prelude.{◌≡◌, IfErr, OnOk, OnErr};
ghost use Rattle.coordinator.specs.machine_api.Promises.{HasHeard, StandsStill};
ghost use Rattle.placed_machines.specs.chromatic.Machines.{IsChromaticMachineOf};

use crate::chromatic::machines::ChromaticMachine;
use update_api::Program;
use wire::wire_msgs::{Message, Returned};

impl<P: Program> ChromaticMachine<P> {
    /// Receives a message from the coordinator: that a snapshot begins or is acknowledged, a wave,
    /// which it answers when its share of the step is done, or a step. For want of memory the
    /// message comes back, and so does what the coordinator doesn't tell.
    pub(crate) fn hear_call(&mut self, message: Message) -> Result<(), Returned>
        ensures heard { OnOk result
            (HasHeard (IsChromaticMachineOf P.meaning) self.old message self.new) }
        ensures returned { IfErr result (λ back. back.message ≡ message) }
        ensures unchanged { OnErr result
            (StandsStill (IsChromaticMachineOf P.meaning) self.old self.new) }
    {
        match message {
            Message::Begin { number } => self.hear_begin(number),
            Message::Committed { number } => self.hear_committed(number),
            Message::Wave { wave } => self.hear_wave(wave),
            Message::Step { colour } => self.hear_step(colour),
            other => Err(Returned { message: other }),
        }
    }

    /// A snapshot of this number begins.
    fn hear_begin(&mut self, number: u32) -> Result<(), Returned>
        ensures heard { OnOk result
            (HasHeard (IsChromaticMachineOf P.meaning) self.old (Message.Begin number) self.new) }
        ensures returned { IfErr result (λ back. back.message ≡ Message.Begin number) }
        ensures unchanged { OnErr result
            (StandsStill (IsChromaticMachineOf P.meaning) self.old self.new) }
    {
        if self.prepare(1).is_err() {
            return Err(Returned {
                message: Message::Begin { number },
            });
        }
        self.machine.begin(number);
        self.prompt();
        Ok(())
    }

    /// This snapshot is acknowledged; and where half of the window is outside it, the coordinator
    /// is asked for the next one.
    fn hear_committed(&mut self, number: u32) -> Result<(), Returned>
        ensures heard { OnOk result
            (HasHeard (IsChromaticMachineOf P.meaning) self.old
            (Message.Committed number) self.new) }
        ensures returned { IfErr result (λ back. back.message ≡ Message.Committed number) }
        ensures unchanged { OnErr result
            (StandsStill (IsChromaticMachineOf P.meaning) self.old self.new) }
    {
        if self.prepare(2).is_err() {
            return Err(Returned {
                message: Message::Committed { number },
            });
        }
        self.machine.committed(number);
        self.ask();
        self.prompt();
        Ok(())
    }

    /// The coordinator asks for the counts of this wave. A count that has ended is want of memory.
    fn hear_wave(&mut self, wave: u64) -> Result<(), Returned>
        ensures heard { OnOk result
            (HasHeard (IsChromaticMachineOf P.meaning) self.old (Message.Wave wave) self.new) }
        ensures returned { IfErr result (λ back. back.message ≡ Message.Wave wave) }
        ensures unchanged { OnErr result
            (StandsStill (IsChromaticMachineOf P.meaning) self.old self.new) }
    {
        if self.prepare_answer().is_err() {
            return Err(Returned {
                message: Message::Wave { wave },
            });
        }
        self.counts.begin_answer(wave);
        self.prompt();
        Ok(())
    }

    /// The step of this colour begins.
    fn hear_step(&mut self, colour: u32) -> Result<(), Returned>
        ensures heard { OnOk result
            (HasHeard (IsChromaticMachineOf P.meaning) self.old (Message.Step colour) self.new) }
        ensures returned { IfErr result (λ back. back.message ≡ Message.Step colour) }
        ensures unchanged { OnErr result
            (StandsStill (IsChromaticMachineOf P.meaning) self.old self.new) }
    {
        if self.prepare(1).is_err() {
            return Err(Returned {
                message: Message::Step { colour },
            });
        }
        self.machine.step(colour);
        self.prompt();
        Ok(())
    }
}
