//! What is on the way from one machine to another.
ghost use Rattle.std.specs.Prelude.{◌≡◌, ◌==◌, ◌<◌, ◌++◌, ◌∷◌, [], length, slice_get, option_map, OnSome, OnOk};
ghost use Rattle.cluster_step.specs.clusters.Inner.Writing.{behind_first};
ghost use Rattle.cluster_step.specs.clusters.Links.{message_view};

use gl_base::NoMemory;
use std::alloc::Global;
use std::collections::VecDeque;
use std::marker::Model;
use wire::wire_msgs::Message;

/// What is on the way from one machine to another, the first first.
#[derive(Drop)]
pub struct Link {
    queue: VecDeque<Message>,
}

impl Model for Link {
    ghost use Rattle.std.specs.Prelude.{◌-◌, length, map};
    ghost use Rattle.cluster_step.specs.clusters.Links.{LinkView, message_view};

    ghost Value = { LinkView };

    ghost view = { λ l. record {
      messages = map message_view l.queue.items;
      room = l.queue.cap - length l.queue.items;
    } };
}

impl Link {
    /// A link with nothing on it.
    pub fn new(alloc: Global) -> Link
        ensures { result.messages ≡ [] }
    {
        Link {
            queue: VecDeque::new(alloc),
        }
    }

    /// Whether nothing is on it.
    pub fn is_empty(&self) -> bool
        ensures { result ≡ (length self.now.messages == 0) }
    {
        self.queue.is_empty()
    }

    /// Makes room for one more message.
    pub fn reserve(&mut self) -> Result<(), NoMemory>
        ensures room { OnOk result (0 < self.new.room) }
        ensures same { self.new.messages ≡ self.old.messages }
    {
        self.queue.reserve(1)?;
        Ok(())
    }

    /// The message is the last one.
    pub fn push(&mut self, message: Message)
        requires { 0 < self.old.room }
        ensures { self.new.messages ≡ self.old.messages ++ message_view message ∷ [] }
    {
        self.queue.push_back_reserved(message);
    }

    /// Takes the first message off. Its room is kept.
    pub fn take(&mut self) -> Option<Message>
        ensures first { option_map message_view result ≡ slice_get self.old.messages 0 }
        ensures behind { self.new.messages ≡ behind_first self.old.messages }
        ensures room { OnSome result (0 < self.new.room) }
    {
        self.queue.pop_front()
    }

    /// The message is the first one.
    pub fn put_back(&mut self, message: Message)
        requires { 0 < self.old.room }
        ensures { self.new.messages ≡ message_view message ∷ self.old.messages }
    {
        self.queue.push_front_reserved(message);
    }
}
