//! What waits for one peer.
ghost use Rattle.std.specs.Prelude.{◌≡◌, ◌<◌, ◌≤◌, [], length, slice_get, option_map, OnOk};
ghost use Rattle.wire.specs.outboxes.Outboxes.{no_outbox, with_message, without_first, emptied, has_waiting, message_view};

use crate::wire_msgs::Message;
use gl_base::NoMemory;
use std::alloc::Global;
use std::collections::VecDeque;
use std::marker::Model;

/// What waits to be sent to one peer, the first first.
#[derive(Drop)]
pub struct Outbox {
    queue: VecDeque<Message>,
}

impl Model for Outbox {
    ghost use Rattle.std.specs.Prelude.{◌-◌, length, map};
    ghost use Rattle.wire.specs.outboxes.Outboxes.{OutboxView, message_view};

    ghost Value = { OutboxView };

    ghost view = { λ o. record {
      messages = map message_view o.queue.items;
      room = o.queue.cap - length o.queue.items;
    } };
}

impl Outbox {
    /// An outbox in which nothing waits.
    pub fn new(alloc: Global) -> Outbox
        ensures { result.messages ≡ [] }
    {
        Outbox {
            queue: VecDeque::new(alloc),
        }
    }

    /// Makes room for one more message.
    pub fn reserve(&mut self) -> Result<(), NoMemory>
        ensures room { OnOk result (0 < self.new.room) }
        ensures kept { self.old.room ≤ self.new.room }
        ensures same { self.new.messages ≡ self.old.messages }
    {
        self.queue.reserve(1)?;
        Ok(())
    }

    /// The message waits behind the others.
    pub fn put(&mut self, message: Message)
        requires { 0 < self.old.room }
        ensures { self.new ≡ with_message (message_view message) self.old }
    {
        self.queue.push_back_reserved(message);
    }

    /// Takes the first message.
    pub fn take(&mut self) -> Option<Message>
        ensures first { option_map message_view result ≡ slice_get self.old.messages 0 }
        ensures behind { self.new ≡ without_first self.old }
    {
        self.queue.pop_front()
    }

    /// Whether a message waits.
    pub fn waits(&self) -> bool
        ensures { result ≡ has_waiting self.now }
    {
        !self.queue.is_empty()
    }

    /// How many messages wait.
    pub fn count(&self) -> usize
        ensures { result ≡ length self.now.messages }
    {
        self.queue.len()
    }

    /// All messages are gone.
    pub fn clear(&mut self)
        ensures { self.new ≡ emptied self.old }
    {
        self.queue.clear();
    }
}
