//! What waits to be sent to the coordinator.
ghost use Rattle.std.specs.Prelude.{◌≡◌, ◌<◌, ◌≤◌, [], option_map, slice_get, OnOk};
ghost use Rattle.snapshot_machines.specs.locking.Reports.{has_report, with_report, without_report};
ghost use Rattle.wire.specs.wire_msgs.Views.{message_view};

use gl_base::NoMemory;
use std::alloc::Global;
use std::collections::VecDeque;
use std::marker::Model;
use wire::wire_msgs::Message;

/// What waits to be sent to the coordinator, the first first.
#[derive(Drop)]
pub struct Reports {
    queue: VecDeque<Message>,
}

impl Model for Reports {
    ghost use Rattle.std.specs.Prelude.{◌-◌, length, map};
    ghost use Rattle.wire.specs.wire_msgs.Views.{message_view};
    ghost use Rattle.snapshot_machines.specs.locking.Reports.{ReportsView};

    ghost Value = { ReportsView };

    ghost view = { λ r. record {
      messages = map message_view r.queue.items;
      room = r.queue.cap - length r.queue.items;
    } };
}

impl Reports {
    /// Nothing waits.
    pub fn new(alloc: Global) -> Reports
        ensures { result.messages ≡ [] }
    {
        Reports {
            queue: VecDeque::new(alloc),
        }
    }

    /// Makes room for one more.
    pub fn reserve(&mut self) -> Result<(), NoMemory>
        ensures room { OnOk result (0 < self.new.room) }
        ensures same { self.new.messages ≡ self.old.messages }
    {
        self.queue.reserve(1)?;
        Ok(())
    }

    /// Makes room for so many more.
    pub fn reserve_many(&mut self, more: usize) -> Result<(), NoMemory>
        ensures room { OnOk result (more ≤ self.new.room) }
        ensures same { self.new.messages ≡ self.old.messages }
    {
        self.queue.reserve(more)?;
        Ok(())
    }

    /// The message waits behind the others. It takes no memory.
    pub fn put(&mut self, message: Message)
        requires { 0 < self.old.room }
        ensures { self.new ≡ with_report (message_view message) self.old }
    {
        self.queue.push_back_reserved(message);
    }

    /// Takes the first message.
    pub fn take(&mut self) -> Option<Message>
        ensures first { option_map message_view result ≡ slice_get self.old.messages 0 }
        ensures behind { self.new ≡ without_report self.old }
    {
        self.queue.pop_front()
    }

    /// Whether a message waits.
    pub fn waits(&self) -> bool
        ensures { result ≡ has_report self.now }
    {
        !self.queue.is_empty()
    }
}
