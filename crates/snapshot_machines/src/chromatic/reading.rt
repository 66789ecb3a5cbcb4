//! What is read of the machine, and what leaves its outboxes.
ghost use Rattle.std.specs.Prelude.{◌≡◌, length, option_map, slice_get};
ghost use Rattle.machine_core.specs.machine_rest.Rest.{is_idle, total};
ghost use Rattle.wire.specs.outboxes.Outboxes.{message_view, outbox_to, waiting_for, with_outbox, without_first};
ghost use Rattle.snapshot_machines.specs.chromatic.Machines.{IsColorSnapPart, IsInSameStep, IsOrderly, KnowsPlaces, Setting, outside_of, part_of_steps};

use crate::chromatic::machines::ColorSnapMachine;
use coordinator::snap_update::SnapPart;
use gl_base::{Entry, Peer};
use machine_core::machine_parts::Core;
use update_api::Program;
use wire::wire_msgs::Message;

impl<P: Program> ColorSnapMachine<P> {
    /// Its parts, which are in order; and the tasks count the updates outside.
    pub fn core(&self) -> &Core
        ensures parts { result.now ≡ self.now.core }
        ensures orderly { IsOrderly self.now.core }
        ensures places { KnowsPlaces self.now.core }
        ensures outside { self.now.core.numbers.tasks.outside ≡ outside_of self.now.kept }
        ensures many { length self.now.colours ≡ length self.now.core.numbers.tasks.task }
    {
        self.machine.core()
    }

    /// What it keeps for snapshots.
    pub fn snaps(&self) -> &SnapPart
        ensures { result.now ≡ self.now.kept }
    {
        self.machine.snaps()
    }

    /// Its program.
    pub fn program(&self) -> &P
        ensures { result.now ≡ self.now.program }
    {
        self.machine.program()
    }

    /// The colour of the step that it is in.
    pub fn colour(&self) -> u32
        ensures { result ≡ self.now.colour }
    {
        self.colour
    }

    /// Whether nothing more is admitted in this step.
    pub fn is_closed(&self) -> bool
        ensures { result ≡ self.now.closed }
    {
        self.closed
    }

    /// The updates that it made since its log begins.
    pub fn log(&self) -> &[Entry]
        ensures { result.now ≡ (part_of_steps self.now).log }
    {
        &self.machine.core().numbers.log
    }

    /// How many scopes it has admitted.
    pub fn serial(&self) -> u64
        ensures { result ≡ (part_of_steps self.now).serial }
    {
        self.machine.core().pipe.next_id().serial
    }

    /// Whether no vertex is a task or pending and no scope is in flight.
    pub fn is_idle(&self) -> bool
        ensures { (st : Setting) → IsColorSnapPart st self.now →
            result ≡ is_idle st (part_of_steps self.now) }
    {
        self.machine.is_idle()
    }

    /// How many messages wait to be sent to machines.
    pub fn waiting(&self) -> u128
        ensures { (st : Setting) → IsColorSnapPart st self.now →
            result ≡ total st.machines (λ q. length ((part_of_steps self.now).out q)) }
    {
        self.machine.waiting()
    }

    /// Takes the first message that waits for a machine or for the coordinator; `None` exactly
    /// where none waits.
    pub fn outbox_take(&mut self, to: Peer) -> Option<Message>
        ensures first { option_map message_view result ≡ slice_get
            (waiting_for self.old.core.out to) 0 }
        ensures behind { self.new.core ≡
            record self.old.core {
              out = with_outbox self.old.core.out to
                  (without_first (outbox_to self.old.core.out to));
            } }
        ensures kept { self.new.kept ≡ self.old.kept }
        ensures step { IsInSameStep self.old self.new }
    {
        self.machine.outbox_take(to)
    }
}
