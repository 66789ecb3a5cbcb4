//! Vertices that are looked for before their update at once.
ghost use Rattle.std.specs.Prelude.{IfNone, IfSome};
ghost use Rattle.machine_core.specs.machine_at_once.Picks.{HasNoneAtOnce};
ghost use Rattle.machine_core.specs.machine_at_once.Inner.Finding.{IsFoundPick};
ghost use Rattle.snapshot_machines.specs.saving.Machines.{IsBetweenCalls};
ghost use Rattle.snapshot_machines.specs.saving.Updates.{WaitsAt};

use crate::saving::machines::SnapMachine;
use gl_base::Vertex;
use machine_core::machine_at_once::Found;
use update_api::Program;

impl<P: Program> SnapMachine<P> {
    /// The vertex that the tasks pick, where it may be updated at once.
    pub fn find_at_once(&self) -> Option<Found>
        ensures found { IfSome result (λ f. IsFoundPick self.now.core f) }
        ensures none { IfNone result (HasNoneAtOnce self.now.core) }
        ensures order { IsBetweenCalls self.now.core self.now.kept }
    {
        machine_core::machine_at_once::find(&self.core)
    }

    /// The place of a vertex that waits for its update.
    pub fn place_of(&self, v: Vertex) -> Vertex
        requires { (place : Vertex) × WaitsAt self.now.core.numbers place v }
        ensures { WaitsAt self.now.core.numbers result v }
    {
        let count = self.core.numbers.tasks.count() as usize;
        match self.core.numbers.local.place(v) {
            Some(place) if place < count => Vertex(place as u32),
            _ => unreachable!(),
        }
    }
}
