//! A machine that takes snapshots, as a cluster knows it.
ghost use Rattle.std.specs.Prelude.{◌≡◌, ◌↔◌, ℕ, [], IsTrue, OnOk, OnErr, IfErr, IfOk, IfSome, IfNone, IsErrOf};
ghost use Rattle.coordinator.specs.machine_api.AtOnce.{CanNotUpdateAtOnce, CanUpdateAtOnce, HasUpdatedAtOnce};
ghost use Rattle.coordinator.specs.machine_api.Promises.{Grant, Machine, Mark, Section, Setting, Update, CanAdmit, CanDo, CanGrantNone, CanMarkNone, CanUpdate, CanUpdateNone, MayBeDone, MayHearCall, CanNotAdmit, CanNotDo, MayReceiveFirst, HasAdmittedSome, HasDone, HasHeard, HasFirst, HasNext, HasReceived, IsReporting, SendsItsFirst, OfEach, StandsStill, fails};

use gl_base::{Entry, MachineNo, Refused, ScopeId, Vertex};
use wire::wire_msgs::{Message, Returned};

/// A machine of a cluster that takes snapshots, with locks or by colours. Each call that changes it
/// is the machine's part of an event: it is `NotNow` exactly where the event's guard fails, and
/// after an error the machine is what it was. What is promised is promised for every machine of the
/// law that it is: with all that the law gives a machine, what it counts and what it keeps for
/// snapshots too.
pub trait SavingMachine: Drop {
    /// It is the machine of this number of a cluster with this setting, and has this.
    ghost represents: { Setting → ℕ → Machine → Self → Type 0 };

    /// A scope of a vertex that is pending, or that is a task where the window has room, sets out
    /// for its locks, or is ready where scopes take none. Which vertex is the machine's choice.
    fn admit(&mut self) -> Result<(), Refused>
        ensures admitted { OnOk result (HasAdmittedSome represents self.old self.new) }
        ensures not_now { IsErrOf result Refused.NotNow → CanNotAdmit represents self.old }
        ensures no_memory { IsErrOf result Refused.NoMemory → CanAdmit represents self.old }
        ensures unchanged { OnErr result (StandsStill represents self.old self.new) };

    /// The first that waits for the lock of an own vertex holds it, and goes on.
    fn grant(&mut self, x: Vertex) -> Result<(), Refused>
        ensures granted { OnOk result (HasDone represents self.old (Grant x.0) self.new) }
        ensures not_now { IsErrOf result Refused.NotNow → CanNotDo represents self.old (Grant x.0) }
        ensures no_memory { IsErrOf result Refused.NoMemory →
            CanDo represents self.old (Grant x.0) }
        ensures unchanged { OnErr result (StandsStill represents self.old self.new) };

    /// An own vertex whose lock may be granted now; `None` exactly where no lock may be.
    fn next_grant(&mut self) -> Option<Vertex>
        ensures some { IfSome result (λ x. CanDo represents self.old (Grant x.0)) }
        ensures none { IfNone result (CanGrantNone represents self.old) }
        ensures unchanged { StandsStill represents self.old self.new };

    /// Makes the update of a ready scope of this home, whose vertex is a task and not pending. It
    /// is logged under the ticket; and where half of the window is outside the last snapshot, the
    /// coordinator is asked for the next one.
    fn update(&mut self, scope: ScopeId, ticket: u64) -> Result<(), Refused>
        ensures updated { OnOk result (HasDone represents self.old (Update scope ticket) self.new) }
        ensures not_now { IsErrOf result Refused.NotNow →
            CanNotDo represents self.old (Update scope ticket) }
        ensures no_memory { IsErrOf result Refused.NoMemory →
            CanDo represents self.old (Update scope ticket) }
        ensures unchanged { OnErr result (StandsStill represents self.old self.new) };

    /// Makes the update of a vertex that is a task and not pending where the window has room, all
    /// of whose scope is this machine's, and of whose scope nobody holds or waits for a lock: a
    /// scope of it is admitted, takes each lock in turn, or none where scopes take none, and makes
    /// its update. It is logged under the ticket, and the coordinator is asked for a snapshot where
    /// it has to be. Of the vertices that may be admitted the machine looks at one of its choice.
    fn update_at_once(&mut self, ticket: u64) -> Result<Vertex, Refused>
        ensures updated { IfOk result (λ v.
            HasUpdatedAtOnce represents self.old v.0 ticket self.new) }
        ensures not_now { IsErrOf result Refused.NotNow → CanNotUpdateAtOnce represents self.old }
        ensures no_memory { IsErrOf result Refused.NoMemory → CanUpdateAtOnce represents self.old }
        ensures unchanged { OnErr result (StandsStill represents self.old self.new) };

    /// Makes the snapshot update of a ready scope of this home, whose vertex is pending.
    fn mark(&mut self, scope: ScopeId) -> Result<(), Refused>
        ensures marked { OnOk result (HasDone represents self.old (Mark scope) self.new) }
        ensures not_now { IsErrOf result Refused.NotNow →
            CanNotDo represents self.old (Mark scope) }
        ensures no_memory { IsErrOf result Refused.NoMemory →
            CanDo represents self.old (Mark scope) }
        ensures unchanged { OnErr result (StandsStill represents self.old self.new) };

    /// A ready scope of this home whose update may be made now; `None` exactly where there is none.
    fn next_update(&self) -> Option<ScopeId>
        ensures some { IfSome result (CanUpdate represents self.now) }
        ensures none { IfNone result (CanUpdateNone represents self.now) };

    /// A ready scope of this home whose snapshot update may be made now; `None` exactly where there
    /// is none.
    fn next_mark(&self) -> Option<ScopeId>
        ensures some { IfSome result (λ s. CanDo represents self.now (Mark s)) }
        ensures none { IfNone result (CanMarkNone represents self.now) };

    /// Puts out the section of the snapshot that the machine knows, all of whose vertices have the
    /// mark.
    fn section(&mut self) -> Result<(), Refused>
        ensures sent { OnOk result (HasDone represents self.old Section self.new) }
        ensures not_now { IsErrOf result Refused.NotNow → CanNotDo represents self.old Section }
        ensures no_memory { IsErrOf result Refused.NoMemory → CanDo represents self.old Section }
        ensures unchanged { OnErr result (StandsStill represents self.old self.new) };

    /// Whether the section may be put out now.
    fn has_section(&mut self) -> bool
        ensures section { OfEach represents self.old (λ st a m. IsTrue result ↔
            MayBeDone st a m Section) }
        ensures unchanged { StandsStill represents self.old self.new };

    /// Receives a message from another machine: the first on the link in some cluster in which this
    /// one stands. For want of memory the message comes back.
    fn receive(&mut self, from: MachineNo, message: Message) -> Result<(), Returned>
        requires { MayReceiveFirst represents self.old from.0 message }
        ensures received { OnOk result (HasReceived represents self.old from.0 message self.new) }
        ensures returned { IfErr result (λ back. back.message ≡ message) }
        ensures unchanged { OnErr result (StandsStill represents self.old self.new) };

    /// Receives a message from the coordinator: that a snapshot begins or is acknowledged, a wave,
    /// which it answers at once or when its share of the step is done, or a step of a colour. For
    /// want of memory the message comes back.
    fn hear(&mut self, message: Message) -> Result<(), Returned>
        requires { MayHearCall represents self.old message }
        ensures heard { OnOk result (HasHeard represents self.old message self.new) }
        ensures returned { IfErr result (λ back. back.message ≡ message) }
        ensures unchanged { OnErr result (StandsStill represents self.old self.new) };

    /// It fails: nothing more happens at it in this attempt.
    fn fail(&mut self)
        ensures { OfEach represents self.old (λ st a m. represents st a (fails m) self.new) };

    /// Whether a message waits to be sent to a machine.
    fn waits(&self, to: MachineNo) -> bool
        ensures { OfEach represents self.now (λ st a m. IsTrue result ↔ HasFirst (m.part.out to.0)) };

    /// Takes the first message that waits to be sent to a machine; `None` exactly where none waits.
    fn outbox_take(&mut self, to: MachineNo) -> Option<Message>
        ensures taken { IfSome result (λ m.
            OfEach represents self.old (SendsItsFirst represents to.0 m self.new)) }
        ensures none { IfNone result (OfEach represents self.old (λ st a m. m.part.out to.0 ≡ [])) }
        ensures unchanged { IfNone result (StandsStill represents self.old self.new) };

    /// Whether a message waits to be sent to the coordinator.
    fn has_report(&self) -> bool
        ensures { OfEach represents self.now (λ st a m. IsTrue result ↔ HasNext m.out) };

    /// Takes the first message that waits to be sent to the coordinator: its counts, its section,
    /// or that it wants a snapshot; `None` exactly where none waits.
    fn report_take(&mut self) -> Option<Message>
        ensures taken { IfSome result (λ m.
            OfEach represents self.old (IsReporting represents m self.new)) }
        ensures none { IfNone result (OfEach represents self.old (λ st a m. m.out ≡ [])) }
        ensures unchanged { IfNone result (StandsStill represents self.old self.new) };

    /// The updates that it made in this attempt.
    fn log(&self) -> &[Entry]
        ensures { OfEach represents self.now (λ st a m. result.now ≡ m.part.log) };

    /// How many scopes it has admitted, in earlier attempts too.
    fn serial(&self) -> u64
        ensures { OfEach represents self.now (λ st a m. result ≡ m.part.serial) };
}
