//! Messages on their way.
ghost use Rattle.std.specs.Prelude.{◌≡◌, ◌≢◌, ℕ, ◌<◌, ◌++◌, ◌∷◌, [], List, true, false, None, Some, length, slice_get, OnOk, OnErr, IfOk, IfSome};
ghost use Rattle.gl_base.specs.scope_lists.Scopes.{set_at};
ghost use Rattle.cluster_laws.specs.cluster_core.Settings.{Setting};
ghost use Rattle.full_laws.specs.FullActions.{HasFirstFull};
ghost use Rattle.full_laws.specs.FullMessages.{FullMessage as ModelMessage};
ghost use Rattle.full_cluster.specs.FullQueues.{AreQueuesOf, HasRoomFor, HasRoomToPut, HasTakenFirst, IsFirstIn, IsMessage};

use crate::FullMessage;
use gl_base::{MachineNo, NoMemory};
use std::alloc::Global;
use std::collections::VecDeque;

/// Messages for one machine, the first first.
#[derive(Drop)]
pub struct FullQueue {
    pub messages: VecDeque<FullMessage>,
}

impl FullQueue {
    /// A queue without a message.
    pub fn none(alloc: Global) -> FullQueue
        ensures { result.messages.items ≡ [] }
    {
        FullQueue {
            messages: VecDeque::new(alloc),
        }
    }

    /// Whether there is a message.
    pub fn waits(&self) -> bool
        ensures yes { result ≡ true → 0 < length self.now.messages.items }
        ensures not { result ≡ false → length self.now.messages.items ≡ 0 }
    {
        !self.messages.is_empty()
    }

    /// The first message, if there is one.
    pub fn front(&self) -> Option<&FullMessage>
        ensures some { IfSome result (λ message.
            slice_get self.now.messages.items 0 ≡ Some message.now) }
        ensures none { result ≡ None → self.now.messages.items ≡ [] }
    {
        self.messages.front()
    }

    /// Makes room for one more message. The messages stay, whatever the answer.
    pub fn reserve(&mut self) -> Result<(), NoMemory>
        ensures room { OnOk result (HasRoomToPut self.new) }
        ensures kept { HasRoomToPut self.old → HasRoomToPut self.new }
        ensures same { self.new.messages.items ≡ self.old.messages.items }
    {
        self.messages.reserve(1)?;
        Ok(())
    }

    /// The message is behind the others. It takes no memory.
    pub fn put(&mut self, message: FullMessage)
        requires { HasRoomToPut self.old }
        ensures { self.new.messages.items ≡ self.old.messages.items ++ message ∷ [] }
    {
        self.messages.push_back_reserved(message);
    }

    /// Takes the first message; `None` exactly where there is none.
    pub fn take(&mut self) -> Option<FullMessage>
        ensures some { IfSome result (λ message.
            self.old.messages.items ≡ message ∷ self.new.messages.items) }
        ensures none { result ≡ None → self.old.messages.items ≡ [] }
        ensures unchanged { result ≡ None → self.new.messages.items ≡ [] }
    {
        self.messages.pop_front()
    }
}

/// Messages for each machine, by its number.
#[derive(Drop)]
pub struct FullQueues {
    pub queues: Vec<FullQueue>,
}

impl FullQueues {
    /// Queues without a message for so many machines.
    pub fn none(alloc: Global, machines: u16) -> Result<FullQueues, NoMemory>
        ensures count { IfOk result (λ all. length all.queues.items ≡ machines) }
        ensures none { (st : Setting) → IfOk result (λ all.
            AreQueuesOf st all.queues.items (λ q. [])) }
    {
        let mut queues = Vec::with_capacity(alloc, machines as usize)?;
        for _ in 0..machines {
            queues.push_reserved(FullQueue::none(alloc));
        }
        Ok(FullQueues { queues })
    }

    /// Whether there is a message for the machine.
    pub fn waits(&self, to: MachineNo) -> bool
        ensures inside { result ≡ true → to.0 < length self.now.queues.items }
        ensures yes { (st : Setting) (out : ℕ → List ModelMessage) →
            AreQueuesOf st self.now.queues.items out → result ≡ true → HasFirstFull (out to.0) }
        ensures not { (st : Setting) (out : ℕ → List ModelMessage) →
            AreQueuesOf st self.now.queues.items out → result ≡ false →
            HasFirstFull (out to.0) → ⊥ }
    {
        let place = to.0 as usize;
        if place >= self.queues.len() {
            return false;
        }
        self.queues[place].waits()
    }

    /// The first message for the machine, if there is one.
    pub fn front(&self, to: MachineNo) -> Option<&FullMessage>
        ensures some { IfSome result (λ message.
            IsFirstIn self.now.queues.items to.0 message.now) }
        ensures none { (st : Setting) (out : ℕ → List ModelMessage) →
            AreQueuesOf st self.now.queues.items out → result ≡ None → HasFirstFull (out to.0) → ⊥ }
    {
        let place = to.0 as usize;
        if place >= self.queues.len() {
            return None;
        }
        self.queues[place].front()
    }

    /// Makes room for one more message for the machine. The messages stay, whatever the answer.
    pub fn reserve(&mut self, to: MachineNo) -> Result<(), NoMemory>
        requires { to.0 < length self.old.queues.items }
        ensures count { length self.new.queues.items ≡ length self.old.queues.items }
        ensures room { OnOk result (HasRoomFor self.new.queues.items to.0) }
        ensures kept { (q : ℕ) → q < length self.old.queues.items →
            HasRoomFor self.old.queues.items q → HasRoomFor self.new.queues.items q }
        ensures same { (st : Setting) (out : ℕ → List ModelMessage) →
            AreQueuesOf st self.old.queues.items out → AreQueuesOf st self.new.queues.items out }
    {
        self.queues[to.0 as usize].reserve()
    }

    /// The message is behind the others for the machine. It takes no memory.
    pub fn put(&mut self, to: MachineNo, message: FullMessage)
        requires inside { to.0 < length self.old.queues.items }
        requires room { HasRoomFor self.old.queues.items to.0 }
        ensures count { length self.new.queues.items ≡ length self.old.queues.items }
        ensures kept { (q : ℕ) → q ≢ to.0 → HasRoomFor self.old.queues.items q →
            HasRoomFor self.new.queues.items q }
        ensures put { (st : Setting) (out : ℕ → List ModelMessage) (m : ModelMessage) →
            AreQueuesOf st self.old.queues.items out → IsMessage st message m →
            AreQueuesOf st self.new.queues.items (set_at out to.0 (out to.0 ++ m ∷ [])) }
    {
        self.queues[to.0 as usize].put(message);
    }

    /// Takes the first message for the machine; `None` exactly where there is none.
    pub fn take(&mut self, to: MachineNo) -> Option<FullMessage>
        ensures count { length self.new.queues.items ≡ length self.old.queues.items }
        ensures some { (st : Setting) (out : ℕ → List ModelMessage) →
            AreQueuesOf st self.old.queues.items out →
            IfSome result (HasTakenFirst st self.new.queues.items out to.0) }
        ensures first { IfSome result (IsFirstIn self.old.queues.items to.0) }
        ensures none { (st : Setting) (out : ℕ → List ModelMessage) →
            AreQueuesOf st self.old.queues.items out → result ≡ None → out to.0 ≡ [] }
        ensures unchanged { (st : Setting) (out : ℕ → List ModelMessage) →
            AreQueuesOf st self.old.queues.items out → result ≡ None →
            AreQueuesOf st self.new.queues.items out }
    {
        let place = to.0 as usize;
        if place >= self.queues.len() {
            return None;
        }
        self.queues[place].take()
    }
}
