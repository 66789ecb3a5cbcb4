//! The machine as a member of a cluster that takes snapshots.
ghost use Rattle.std.specs.Prelude.{◌≡◌};

use crate::chromatic::machines::ChromaticMachine;
use coordinator::machine_api::SavingMachine;
use gl_base::{Entry, MachineNo, Refused, ScopeId, Vertex};
use update_api::Program;
use wire::wire_msgs::{Message, Returned};

impl<P: Program> SavingMachine for ChromaticMachine<P> {
    ghost use Rattle.placed_machines.specs.chromatic.Machines.{IsChromaticMachineOf};

    ghost represents = { IsChromaticMachineOf P.meaning };

    fn admit(&mut self) -> Result<(), Refused> {
        self.admit_one()
    }

    /// Scopes take no locks, so nobody waits for one.
    fn grant(&mut self, _x: Vertex) -> Result<(), Refused> {
        Err(Refused::NotNow)
    }

    fn next_grant(&mut self) -> Option<Vertex> {
        None
    }

    fn update(&mut self, scope: ScopeId, ticket: u64) -> Result<(), Refused> {
        self.update_one(scope, ticket)
    }

    fn update_at_once(&mut self, ticket: u64) -> Result<Vertex, Refused> {
        self.update_pick(ticket)
    }

    fn mark(&mut self, scope: ScopeId) -> Result<(), Refused> {
        self.mark_one(scope)
    }

    fn next_update(&self) -> Option<ScopeId> {
        self.next_update_here()
    }

    fn next_mark(&self) -> Option<ScopeId> {
        self.next_mark_here()
    }

    fn section(&mut self) -> Result<(), Refused> {
        self.put_section()
    }

    fn has_section(&mut self) -> bool {
        self.may_put_section()
    }

    fn receive(&mut self, from: MachineNo, message: Message) -> Result<(), Returned> {
        self.receive_first(from, message)
    }

    fn hear(&mut self, message: Message) -> Result<(), Returned> {
        self.hear_call(message)
    }

    fn fail(&mut self) {
        self.give_up();
    }

    fn waits(&self, to: MachineNo) -> bool {
        self.has_message(to)
    }

    fn outbox_take(&mut self, to: MachineNo) -> Option<Message> {
        self.message_take(to)
    }

    fn has_report(&self) -> bool {
        self.waits_to_report()
    }

    fn report_take(&mut self) -> Option<Message> {
        self.first_report()
    }

    fn log(&self) -> &[Entry] {
        self.updates()
    }

    fn serial(&self) -> u64 {
        self.admitted()
    }
}
