//! What is read of the machine, and what leaves its outboxes.
ghost use Rattle.std.specs.Prelude.{◌≡◌, length, option_map, slice_get};
ghost use Rattle.machine_core.specs.machine_rest.Rest.{IsPartOf, Setting, is_idle, part_of, total};
ghost use Rattle.wire.specs.outboxes.Outboxes.{message_view, outbox_to, waiting_for, with_outbox, without_first};
ghost use Rattle.snapshot_machines.specs.saving.Machines.{HasEachRow, IsOrderly, KnowsPlaces, SameSettings, outside_of};

use crate::saving::machines::SnapMachine;
use coordinator::snap_update::SnapPart;
use gl_base::Peer;
use machine_core::machine_parts::Core;
use update_api::Program;
use wire::wire_msgs::Message;

impl<P: Program> SnapMachine<P> {
    /// Its parts, which are in order, with each row in; and the tasks count the updates outside.
    pub fn core(&self) -> &Core
        ensures parts { result.now ≡ self.now.core }
        ensures orderly { IsOrderly self.now.core }
        ensures places { KnowsPlaces self.now.core }
        ensures rows { HasEachRow self.now.core.numbers.local }
        ensures outside { self.now.core.numbers.tasks.outside ≡ outside_of self.now.kept }
    {
        &self.core
    }

    /// What it keeps for snapshots.
    pub fn snaps(&self) -> &SnapPart
        ensures { result.now ≡ self.now.kept }
    {
        &self.snaps
    }

    /// Its program.
    pub fn program(&self) -> &P
        ensures { result.now ≡ self.now.program }
    {
        &self.program
    }

    /// Whether no vertex is a task or pending, no scope of this machine is in flight, and nobody
    /// waits for one of its locks.
    pub fn is_idle(&self) -> bool
        ensures { (st : Setting) → IsPartOf st self.now.core →
            result ≡ is_idle st (part_of self.now.core) }
    {
        machine_core::machine_rest::is_idle(&self.core)
    }

    /// How many messages wait to be sent to machines.
    pub fn waiting(&self) -> u128
        ensures { (st : Setting) → IsPartOf st self.now.core →
            result ≡ total st.machines (λ q. length ((part_of self.now.core).out q)) }
    {
        machine_core::machine_rest::waiting(&self.core)
    }

    /// Takes the first message that waits for a machine or for the coordinator; `None` exactly
    /// where none waits.
    pub fn outbox_take(&mut self, to: Peer) -> Option<Message>
        ensures first { option_map message_view result ≡ slice_get
            (waiting_for self.old.core.out to) 0 }
        ensures behind { self.new.core ≡
            record self.old.core {
              out = with_outbox self.old.core.out to
                  (without_first (outbox_to self.old.core.out to));
            } }
        ensures kept { self.new.kept ≡ self.old.kept }
        ensures program { self.new.program ≡ self.old.program }
        ensures settings { SameSettings self.old.core self.new.core }
    {
        self.core.out.take(to)
    }
}
