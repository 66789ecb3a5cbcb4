//! What comes from the coordinator.
ghost use Rattle.std.specs.Prelude.{◌≡◌, ◌<◌, length, IfErr, OnOk, OnErr};
ghost use Rattle.coordinator.specs.machine_api.Promises.{HasHeard, StandsStill};
ghost use Rattle.snapshot_machines.specs.locking.Asking.{HasToldCounts};
ghost use Rattle.snapshot_machines.specs.locking.Machines.{IsLockingMachineOf};

use crate::locking::machines::LockingMachine;
use gl_base::Entry;
use update_api::Program;
use wire::wire_msgs::{Message, Returned};

impl<P: Program> LockingMachine<P> {
    /// Receives a message from the coordinator: that a snapshot begins or is acknowledged, or a
    /// wave, which it answers at once. For want of memory the message comes back, and so does what
    /// the coordinator doesn't tell.
    pub(crate) fn hear_call(&mut self, message: Message) -> Result<(), Returned>
        ensures heard { OnOk result
            (HasHeard (IsLockingMachineOf P.meaning) self.old message self.new) }
        ensures returned { IfErr result (λ back. back.message ≡ message) }
        ensures unchanged { OnErr result
            (StandsStill (IsLockingMachineOf P.meaning) self.old self.new) }
    {
        match message {
            Message::Begin { number } => {
                self.machine.begin(number);
                Ok(())
            }
            Message::Committed { number } => self.hear_committed(number),
            Message::Wave { wave } => self.hear_wave(wave),
            other => Err(Returned { message: other }),
        }
    }

    /// This snapshot is acknowledged; and where half of the window is outside it, the coordinator
    /// is asked for the next one.
    fn hear_committed(&mut self, number: u32) -> Result<(), Returned>
        ensures heard { OnOk result
            (HasHeard (IsLockingMachineOf P.meaning) self.old (Message.Committed number) self.new) }
        ensures returned { IfErr result (λ back. back.message ≡ Message.Committed number) }
        ensures unchanged { OnErr result
            (StandsStill (IsLockingMachineOf P.meaning) self.old self.new) }
    {
        if self.reports.reserve().is_err() {
            return Err(Returned {
                message: Message::Committed { number },
            });
        }
        self.machine.committed(number);
        self.ask();
        Ok(())
    }

    /// The coordinator asks for the counts of this wave. A count that has ended is want of memory.
    fn hear_wave(&mut self, wave: u64) -> Result<(), Returned>
        ensures heard { OnOk result
            (HasHeard (IsLockingMachineOf P.meaning) self.old (Message.Wave wave) self.new) }
        ensures returned { IfErr result (λ back. back.message ≡ Message.Wave wave) }
        ensures unchanged { OnErr result
            (StandsStill (IsLockingMachineOf P.meaning) self.old self.new) }
    {
        if self.reports.reserve().is_err() {
            return Err(Returned {
                message: Message::Wave { wave },
            });
        }
        match self.counts.put_out(self.machine.waiting()) {
            Ok(sent) => {
                self.answer(wave, sent);
                Ok(())
            }
            Err(_) => Err(Returned {
                message: Message::Wave { wave },
            }),
        }
    }

    /// The answer to this wave, where so many messages were put out. It takes no memory.
    fn answer(&mut self, wave: u64, sent: u64)
        requires { 0 < self.old.reports.room }
        ensures { HasToldCounts self.old self.new wave sent }
    {
        let updates = count(&self.machine.core().numbers.log);
        let idle = self.machine.is_idle();
        self.counts.begin_answer(wave);
        if let Some(answer) = self.counts.answer(true, sent, updates, idle) {
            self.reports.put(Message::Count {
                wave: answer.wave,
                counted: answer.counted,
            });
        }
    }
}

/// How many entries there are.
fn count(entries: &[Entry]) -> u64
    ensures { result ≡ length entries.now }
{
    entries.len() as u64
}
