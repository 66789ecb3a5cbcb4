//! Machines that say beforehand what they may update at once, and grant several locks in one call.
ghost use Rattle.std.specs.Prelude.{IfNone, IfSome, IsErrOf, OnErr, OnOk};
ghost use Rattle.gl_base.specs.declared.numbers.Vertex.{Vertex};
ghost use Rattle.coordinator.specs.machine_api.AtOnce.{CanNotUpdateAtOnce, HasUpdatedAtOnce};
ghost use Rattle.coordinator.specs.machine_api.Eager.{CanBeginAtOnce};
ghost use Rattle.coordinator.specs.machine_api.InTurn.{HasGrantedInTurn};
ghost use Rattle.coordinator.specs.machine_api.Promises.{Grant, CanDo, CanNotDo, StandsStill};

use crate::machine_api::machines::SavingMachine;
use gl_base::{NoMemory, Refused, Vertex};

/// A machine whose update at once is looked for before its ticket is drawn, since a ticket can't be
/// given back; and which grants one lock after another in one call.
pub trait EagerMachine: SavingMachine {
    /// It may update this vertex at once now, and knows where it is.
    ghost finds: { Self → Vertex → Type 0 };

    /// The vertex that may be updated at once now; `None` only where the one that the machine looks
    /// at may not be.
    fn next_at_once(&self) -> Option<Vertex>
        ensures found { IfSome result (λ v. finds self.now v) }
        ensures can { IfSome result (λ v. CanBeginAtOnce Self.represents self.now v.0) }
        ensures none { IfNone result (CanNotUpdateAtOnce Self.represents self.now) };

    /// Makes the update at once of a vertex that was found, under this ticket.
    fn update_now(&mut self, v: Vertex, ticket: u64) -> Result<(), NoMemory>
        requires { finds self.old v }
        ensures updated { OnOk result
            (HasUpdatedAtOnce Self.represents self.old v.0 ticket self.new) }
        ensures unchanged { OnErr result (StandsStill Self.represents self.old self.new) };

    /// The first that waits for the lock of an own vertex holds it, and goes on; and then in turn
    /// it is granted the locks that it asks for here, where they may be granted: as many as the
    /// machine likes. It is `NotNow` exactly where the first may not be granted.
    fn grant_in_turn(&mut self, x: Vertex) -> Result<(), Refused>
        ensures granted { OnOk result (HasGrantedInTurn Self.represents self.old x.0 self.new) }
        ensures not_now { IsErrOf result Refused.NotNow →
            CanNotDo Self.represents self.old (Grant x.0) }
        ensures no_memory { IsErrOf result Refused.NoMemory →
            CanDo Self.represents self.old (Grant x.0) }
        ensures unchanged { OnErr result (StandsStill Self.represents self.old self.new) };
}
