//! What is read of the machine, and what leaves it.
ghost use Rattle.std.specs.Prelude.{◌≡◌, ◌↔◌, [], IfNone, IfSome, IsTrue};
ghost use Rattle.coordinator.specs.machine_api.Promises.{HasFirst, HasNext, IsReporting, OfEach, SendsItsFirst, StandsStill, fails};
ghost use Rattle.snapshot_machines.specs.locking.Machines.{IsLockingMachineOf};

use crate::locking::machines::LockingMachine;
use gl_base::{Entry, MachineNo, Peer};
use update_api::Program;
use wire::wire_msgs::Message;

impl<P: Program> LockingMachine<P> {
    /// Whether a message waits to be sent to a machine.
    pub(crate) fn has_message(&self, to: MachineNo) -> bool
        ensures { OfEach (IsLockingMachineOf P.meaning) self.now (λ st a m. IsTrue result ↔
            HasFirst (m.part.out to.0)) }
    {
        self.machine.core().out.waits(Peer::Machine(to))
    }

    /// Takes the first message that waits to be sent to a machine; `None` exactly where none waits.
    pub(crate) fn message_take(&mut self, to: MachineNo) -> Option<Message>
        ensures taken { IfSome result (λ m.
            OfEach (IsLockingMachineOf P.meaning) self.old
            (SendsItsFirst (IsLockingMachineOf P.meaning) to.0 m self.new)) }
        ensures none { IfNone result (OfEach (IsLockingMachineOf P.meaning) self.old (λ st a m.
            m.part.out to.0 ≡ [])) }
        ensures unchanged { IfNone result
            (StandsStill (IsLockingMachineOf P.meaning) self.old self.new) }
    {
        match self.machine.outbox_take(Peer::Machine(to)) {
            Some(message) => {
                self.counts.add_sent();
                Some(message)
            }
            None => None,
        }
    }

    /// Whether a message waits to be sent to the coordinator.
    pub(crate) fn waits_to_report(&self) -> bool
        ensures { OfEach (IsLockingMachineOf P.meaning) self.now (λ st a m. IsTrue result ↔
            HasNext m.out) }
    {
        self.reports.waits()
    }

    /// Takes the first message that waits to be sent to the coordinator; `None` exactly where none
    /// waits.
    pub(crate) fn first_report(&mut self) -> Option<Message>
        ensures taken { IfSome result (λ m.
            OfEach (IsLockingMachineOf P.meaning) self.old
            (IsReporting (IsLockingMachineOf P.meaning) m self.new)) }
        ensures none { IfNone result (OfEach (IsLockingMachineOf P.meaning) self.old (λ st a m.
            m.out ≡ [])) }
        ensures unchanged { IfNone result
            (StandsStill (IsLockingMachineOf P.meaning) self.old self.new) }
    {
        self.reports.take()
    }

    /// The updates that it made in this attempt.
    pub(crate) fn updates(&self) -> &[Entry]
        ensures { OfEach (IsLockingMachineOf P.meaning) self.now (λ st a m.
            result.now ≡ m.part.log) }
    {
        &self.machine.core().numbers.log
    }

    /// How many scopes it has admitted, in earlier attempts too.
    pub(crate) fn admitted(&self) -> u64
        ensures { OfEach (IsLockingMachineOf P.meaning) self.now (λ st a m.
            result ≡ m.part.serial) }
    {
        self.machine.core().pipe.next_id().serial
    }

    /// It fails: nothing more happens at it in this attempt.
    pub(crate) fn give_up(&mut self)
        ensures { OfEach (IsLockingMachineOf P.meaning) self.old (λ st a m.
            IsLockingMachineOf P.meaning st a (fails m) self.new) }
    {}
}
