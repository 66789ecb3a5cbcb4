//! Updates at once whose vertex is found before the ticket is drawn.
use crate::chromatic::machines::ChromaticMachine;
use coordinator::machine_api::EagerMachine;
use gl_base::{NoMemory, Refused, Vertex};
use update_api::Program;

impl<P: Program> EagerMachine for ChromaticMachine<P> {
    ghost use Rattle.placed_machines.specs.chromatic.Eager.{FindsByColour};

    ghost finds = { FindsByColour };

    fn next_at_once(&self) -> Option<Vertex> {
        self.machine.next_at_once()
    }

    fn update_now(&mut self, v: Vertex, ticket: u64) -> Result<(), NoMemory> {
        self.prepare(2)?;
        self.machine.update_now(v, ticket)?;
        self.ask();
        self.prompt();
        Ok(())
    }

    /// Scopes take no locks, so nobody waits for one.
    fn grant_in_turn(&mut self, _x: Vertex) -> Result<(), Refused> {
        Err(Refused::NotNow)
    }
}
