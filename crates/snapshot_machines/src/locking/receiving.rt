//! What comes from other machines.
ghost use Rattle.std.specs.Prelude.{◌≡◌, IfErr, OnOk, OnErr};
ghost use Rattle.coordinator.specs.machine_api.Promises.{HasReceived, MayReceiveFirst, StandsStill};
ghost use Rattle.snapshot_machines.specs.locking.Machines.{IsLockingMachineOf};

use crate::locking::machines::LockingMachine;
use gl_base::{MachineNo, ScopeId, Vertex};
use update_api::Program;
use wire::wire_msgs::{Done, Message, Returned};

impl<P: Program> LockingMachine<P> {
    /// Receives a message from another machine: the first on the link in some cluster in which this
    /// one stands. For want of memory the message comes back, and so does what machines don't tell
    /// each other.
    pub(crate) fn receive_first(
        &mut self,
        from: MachineNo,
        message: Message,
    ) -> Result<(), Returned>
        requires { MayReceiveFirst (IsLockingMachineOf P.meaning) self.old from.0 message }
        ensures received { OnOk result
            (HasReceived (IsLockingMachineOf P.meaning) self.old from.0 message self.new) }
        ensures returned { IfErr result (λ back. back.message ≡ message) }
        ensures unchanged { OnErr result
            (StandsStill (IsLockingMachineOf P.meaning) self.old self.new) }
    {
        match message {
            Message::Ask {
                scope,
                centre,
                rest,
            } => self.receive_ask(from, scope, centre, rest),
            Message::Ready { scope } => {
                self.receive_ready(from, scope);
                Ok(())
            }
            Message::Done(done) => {
                self.receive_done(from, done);
                Ok(())
            }
            other => Err(Returned { message: other }),
        }
    }

    /// A scope asks for its locks here.
    fn receive_ask(
        &mut self,
        from: MachineNo,
        scope: ScopeId,
        centre: Vertex,
        rest: Vec<MachineNo>,
    ) -> Result<(), Returned>
        requires { MayReceiveFirst (IsLockingMachineOf P.meaning) self.old from.0
            (Message.Ask scope centre rest) }
        ensures received { OnOk result
            (HasReceived (IsLockingMachineOf P.meaning) self.old from.0
            (Message.Ask scope centre rest) self.new) }
        ensures returned { IfErr result (λ back. back.message ≡ Message.Ask scope centre rest) }
        ensures unchanged { OnErr result
            (StandsStill (IsLockingMachineOf P.meaning) self.old self.new) }
    {
        match self.machine.receive_ask(scope, centre, rest) {
            Ok(()) => {
                self.counts.add_received();
                Ok(())
            }
            Err(rest) => Err(Returned {
                message: Message::Ask {
                    scope,
                    centre,
                    rest,
                },
            }),
        }
    }

    /// A scope of this home has all its locks. It takes no memory.
    fn receive_ready(&mut self, from: MachineNo, scope: ScopeId)
        requires { MayReceiveFirst (IsLockingMachineOf P.meaning) self.old
            from.0 (Message.Ready scope) }
        ensures { HasReceived (IsLockingMachineOf P.meaning) self.old from.0
            (Message.Ready scope) self.new }
    {
        self.machine.receive_ready(scope);
        self.counts.add_received();
    }

    /// Word of an update elsewhere has come, be it a snapshot update or not. It takes no memory.
    fn receive_done(&mut self, from: MachineNo, done: Done)
        requires { MayReceiveFirst (IsLockingMachineOf P.meaning) self.old
            from.0 (Message.Done done) }
        ensures { HasReceived (IsLockingMachineOf P.meaning) self.old from.0
            (Message.Done done) self.new }
    {
        self.machine.learn(done);
        self.counts.add_received();
    }
}
