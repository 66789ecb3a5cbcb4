//! The machine as a member of a cluster that takes snapshots.
use crate::locking::machines::LockingMachine;
use coordinator::machine_api::SavingMachine;
use gl_base::{Entry, MachineNo, Refused, ScopeId, Vertex};
use update_api::Program;
use wire::wire_msgs::{Message, Returned};

impl<P: Program> SavingMachine for LockingMachine<P> {
    ghost use Rattle.snapshot_machines.specs.locking.Machines.{IsLockingMachineOf};

    ghost represents = { IsLockingMachineOf P.meaning };

    fn admit(&mut self) -> Result<(), Refused> {
        self.admit_one()
    }

    fn grant(&mut self, x: Vertex) -> Result<(), Refused> {
        self.grant_first(x)
    }

    fn next_grant(&mut self) -> Option<Vertex> {
        self.next_lock()
    }

    fn update(&mut self, scope: ScopeId, ticket: u64) -> Result<(), Refused> {
        self.update_one(scope, ticket)
    }

    fn update_at_once(&mut self, ticket: u64) -> Result<Vertex, Refused> {
        self.update_pick(ticket)
    }

    fn mark(&mut self, scope: ScopeId) -> Result<(), Refused> {
        self.mark_one(scope)
    }

    fn next_update(&self) -> Option<ScopeId> {
        self.next_update_here()
    }

    fn next_mark(&self) -> Option<ScopeId> {
        self.next_mark_here()
    }

    fn section(&mut self) -> Result<(), Refused> {
        self.put_section()
    }

    fn has_section(&mut self) -> bool {
        self.may_put_section()
    }

    fn receive(&mut self, from: MachineNo, message: Message) -> Result<(), Returned> {
        self.receive_first(from, message)
    }

    fn hear(&mut self, message: Message) -> Result<(), Returned> {
        self.hear_call(message)
    }

    fn fail(&mut self) {
        self.give_up();
    }

    fn waits(&self, to: MachineNo) -> bool {
        self.has_message(to)
    }

    fn outbox_take(&mut self, to: MachineNo) -> Option<Message> {
        self.message_take(to)
    }

    fn has_report(&self) -> bool {
        self.waits_to_report()
    }

    fn report_take(&mut self) -> Option<Message> {
        self.first_report()
    }

    fn log(&self) -> &[Entry] {
        self.updates()
    }

    fn serial(&self) -> u64 {
        self.admitted()
    }
}
