//! Updates at once whose vertex is found before the ticket is drawn, and locks that are granted in
//! turn.
use crate::locking::machines::LockingMachine;
use coordinator::machine_api::EagerMachine;
use gl_base::{NoMemory, Refused, Vertex};
use machine_core::machine_at_once::Found;
use update_api::Program;

impl<P: Program> EagerMachine for LockingMachine<P> {
    ghost use Rattle.snapshot_machines.specs.locking.Eager.{FindsPick};

    ghost finds = { FindsPick };

    fn next_at_once(&self) -> Option<Vertex> {
        match self.machine.find_at_once() {
            Some(found) => Some(found.vertex),
            None => None,
        }
    }

    fn update_now(&mut self, v: Vertex, ticket: u64) -> Result<(), NoMemory> {
        self.reports.reserve()?;
        let place = self.machine.place_of(v);
        self.machine
            .update_found(Found { place, vertex: v }, ticket)?;
        self.ask();
        Ok(())
    }

    fn grant_in_turn(&mut self, x: Vertex) -> Result<(), Refused> {
        if let Err(refused) = self.machine.grant_in_turn(x) {
            return Err(refused);
        }
        Ok(())
    }
}
