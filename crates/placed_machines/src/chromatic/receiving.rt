//! What comes from other machines.
ghost use Rattle.std.specs.Prelude.{◌≡◌, IfErr, OnOk, OnErr};
ghost use Rattle.coordinator.specs.machine_api.Promises.{HasReceived, MayReceiveFirst, StandsStill};
ghost use Rattle.placed_machines.specs.chromatic.Machines.{IsChromaticMachineOf};

use crate::chromatic::machines::ChromaticMachine;
use gl_base::MachineNo;
use update_api::Program;
use wire::wire_msgs::{Done, Message, Returned};

impl<P: Program> ChromaticMachine<P> {
    /// Receives a message from another machine: the first on the link in some cluster in which this
    /// one stands, which is word of an update. For want of memory the message comes back, and so
    /// does what machines don't tell each other.
    pub(crate) fn receive_first(
        &mut self,
        from: MachineNo,
        message: Message,
    ) -> Result<(), Returned>
        requires { MayReceiveFirst (IsChromaticMachineOf P.meaning) self.old from.0 message }
        ensures received { OnOk result
            (HasReceived (IsChromaticMachineOf P.meaning) self.old from.0 message self.new) }
        ensures returned { IfErr result (λ back. back.message ≡ message) }
        ensures unchanged { OnErr result
            (StandsStill (IsChromaticMachineOf P.meaning) self.old self.new) }
    {
        match message {
            Message::Done(done) => self.receive_done(from, done),
            other => Err(Returned { message: other }),
        }
    }

    /// Word of an update elsewhere has come, be it a snapshot update or not.
    fn receive_done(&mut self, from: MachineNo, done: Done) -> Result<(), Returned>
        requires { MayReceiveFirst (IsChromaticMachineOf P.meaning) self.old
            from.0 (Message.Done done) }
        ensures received { OnOk result
            (HasReceived (IsChromaticMachineOf P.meaning) self.old from.0
            (Message.Done done) self.new) }
        ensures returned { IfErr result (λ back. back.message ≡ Message.Done done) }
        ensures unchanged { OnErr result
            (StandsStill (IsChromaticMachineOf P.meaning) self.old self.new) }
    {
        if self.prepare(1).is_err() {
            return Err(Returned {
                message: Message::Done(done),
            });
        }
        self.machine.learn(done);
        self.counts.add_received();
        self.prompt();
        Ok(())
    }
}
