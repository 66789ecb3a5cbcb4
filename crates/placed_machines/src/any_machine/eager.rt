//! Updates at once whose vertex is found before the ticket is drawn, and locks that are granted in
//! turn, of a machine of either engine.
use crate::any_machine::machines::AnyMachine;
use coordinator::machine_api::EagerMachine;
use gl_base::{NoMemory, Refused, Vertex};
use update_api::Program;

impl<P: Program> EagerMachine for AnyMachine<P> {
    ghost use Rattle.placed_machines.specs.any_machine.Eager.{FindsAny};

    ghost finds = { FindsAny };

    fn next_at_once(&self) -> Option<Vertex> {
        match self {
            AnyMachine::Locking(machine) => machine.next_at_once(),
            AnyMachine::Chromatic(machine) => machine.next_at_once(),
        }
    }

    fn update_now(&mut self, v: Vertex, ticket: u64) -> Result<(), NoMemory> {
        match self {
            AnyMachine::Locking(machine) => machine.update_now(v, ticket),
            AnyMachine::Chromatic(machine) => machine.update_now(v, ticket),
        }
    }

    fn grant_in_turn(&mut self, x: Vertex) -> Result<(), Refused> {
        match self {
            AnyMachine::Locking(machine) => machine.grant_in_turn(x),
            AnyMachine::Chromatic(machine) => machine.grant_in_turn(x),
        }
    }
}
