//! The machine as a member of a cluster that takes snapshots.
use crate::any_machine::machines::AnyMachine;
use coordinator::machine_api::SavingMachine;
use gl_base::{Entry, MachineNo, Refused, ScopeId, Vertex};
use update_api::Program;
use wire::wire_msgs::{Message, Returned};

impl<P: Program> SavingMachine for AnyMachine<P> {
    ghost use Rattle.placed_machines.specs.any_machine.Machines.{IsAnyMachineOf};

    ghost represents = { IsAnyMachineOf P.meaning };

    fn admit(&mut self) -> Result<(), Refused> {
        match self {
            AnyMachine::Locking(machine) => machine.admit(),
            AnyMachine::Chromatic(machine) => machine.admit(),
        }
    }

    fn grant(&mut self, x: Vertex) -> Result<(), Refused> {
        match self {
            AnyMachine::Locking(machine) => machine.grant(x),
            AnyMachine::Chromatic(machine) => machine.grant(x),
        }
    }

    fn next_grant(&mut self) -> Option<Vertex> {
        match self {
            AnyMachine::Locking(machine) => machine.next_grant(),
            AnyMachine::Chromatic(machine) => machine.next_grant(),
        }
    }

    fn update(&mut self, scope: ScopeId, ticket: u64) -> Result<(), Refused> {
        match self {
            AnyMachine::Locking(machine) => machine.update(scope, ticket),
            AnyMachine::Chromatic(machine) => machine.update(scope, ticket),
        }
    }

    fn update_at_once(&mut self, ticket: u64) -> Result<Vertex, Refused> {
        match self {
            AnyMachine::Locking(machine) => machine.update_at_once(ticket),
            AnyMachine::Chromatic(machine) => machine.update_at_once(ticket),
        }
    }

    fn mark(&mut self, scope: ScopeId) -> Result<(), Refused> {
        match self {
            AnyMachine::Locking(machine) => machine.mark(scope),
            AnyMachine::Chromatic(machine) => machine.mark(scope),
        }
    }

    fn next_update(&self) -> Option<ScopeId> {
        match self {
            AnyMachine::Locking(machine) => machine.next_update(),
            AnyMachine::Chromatic(machine) => machine.next_update(),
        }
    }

    fn next_mark(&self) -> Option<ScopeId> {
        match self {
            AnyMachine::Locking(machine) => machine.next_mark(),
            AnyMachine::Chromatic(machine) => machine.next_mark(),
        }
    }

    fn section(&mut self) -> Result<(), Refused> {
        match self {
            AnyMachine::Locking(machine) => machine.section(),
            AnyMachine::Chromatic(machine) => machine.section(),
        }
    }

    fn has_section(&mut self) -> bool {
        match self {
            AnyMachine::Locking(machine) => machine.has_section(),
            AnyMachine::Chromatic(machine) => machine.has_section(),
        }
    }

    fn receive(&mut self, from: MachineNo, message: Message) -> Result<(), Returned> {
        match self {
            AnyMachine::Locking(machine) => machine.receive(from, message),
            AnyMachine::Chromatic(machine) => machine.receive(from, message),
        }
    }

    fn hear(&mut self, message: Message) -> Result<(), Returned> {
        match self {
            AnyMachine::Locking(machine) => machine.hear(message),
            AnyMachine::Chromatic(machine) => machine.hear(message),
        }
    }

    fn fail(&mut self) {
        match self {
            AnyMachine::Locking(machine) => machine.fail(),
            AnyMachine::Chromatic(machine) => machine.fail(),
        }
    }

    fn waits(&self, to: MachineNo) -> bool {
        match self {
            AnyMachine::Locking(machine) => machine.waits(to),
            AnyMachine::Chromatic(machine) => machine.waits(to),
        }
    }

    fn outbox_take(&mut self, to: MachineNo) -> Option<Message> {
        match self {
            AnyMachine::Locking(machine) => machine.outbox_take(to),
            AnyMachine::Chromatic(machine) => machine.outbox_take(to),
        }
    }

    fn has_report(&self) -> bool {
        match self {
            AnyMachine::Locking(machine) => machine.has_report(),
            AnyMachine::Chromatic(machine) => machine.has_report(),
        }
    }

    fn report_take(&mut self) -> Option<Message> {
        match self {
            AnyMachine::Locking(machine) => machine.report_take(),
            AnyMachine::Chromatic(machine) => machine.report_take(),
        }
    }

    fn log(&self) -> &[Entry] {
        match self {
            AnyMachine::Locking(machine) => machine.log(),
            AnyMachine::Chromatic(machine) => machine.log(),
        }
    }

    fn serial(&self) -> u64 {
        match self {
            AnyMachine::Locking(machine) => machine.serial(),
            AnyMachine::Chromatic(machine) => machine.serial(),
        }
    }
}
