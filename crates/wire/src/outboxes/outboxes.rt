//! What waits to be sent.
ghost use Rattle.std.specs.Prelude.{◌≡◌, ◌<◌, ◌≤◌, [], length, map, slice_get, option_map, sum_by, IfOk, OnOk};
ghost use Rattle.std.specs.List.{All};
ghost use Rattle.wire.specs.outboxes.Outboxes.{outbox_to, waiting_for, IsPeerOf, IsNextWaiting, with_outbox, with_message, without_first, emptied, has_waiting, message_view};

use crate::outboxes::boxes::Outbox;
use crate::wire_msgs::Message;
use gl_base::{MachineNo, NoMemory, Peer};
use std::alloc::Global;
use std::marker::Model;

/// What waits to be sent: to each machine of the cluster, and to the coordinator. Contracts see the
/// messages that wait, as what they hold, and for how many more there is room.
#[derive(Drop)]
pub struct Outboxes {
    machines: Vec<Outbox>,
    coordinator: Outbox,
}

impl Model for Outboxes {
    ghost use Rattle.std.specs.Prelude.{◌<◌, length};
    ghost use Rattle.wire.specs.outboxes.Outboxes.{OutboxesView};

    ghost Value = { OutboxesView };

    ghost view = { λ o. record { machines = o.machines.items; coordinator = o.coordinator } };

    ghost invariant = { λ o. length o.machines.items < 65536 };
}

impl Outboxes {
    /// Outboxes to so many machines, and to the coordinator, in which nothing waits.
    pub fn new(alloc: Global, machines: u16) -> Result<Outboxes, NoMemory>
        ensures machines { IfOk result (λ o. length o.machines ≡ machines) }
        ensures none { IfOk result (λ o. (to : Peer) → waiting_for o to ≡ []) }
    {
        let mut boxes = Vec::with_capacity(alloc, machines as usize)?;
        for _ in 0..machines {
            boxes.push_reserved(Outbox::new(alloc));
        }
        Ok(Outboxes {
            machines: boxes,
            coordinator: Outbox::new(alloc),
        })
    }

    /// Makes room for one more message to a peer.
    pub fn reserve(&mut self, to: Peer) -> Result<(), NoMemory>
        requires { IsPeerOf self.old to }
        ensures room { OnOk result (0 < (outbox_to self.new to).room) }
        ensures kept { (outbox_to self.old to).room ≤ (outbox_to self.new to).room }
        ensures rest { self.new ≡ with_outbox self.old to
            (record (outbox_to self.old to) { room = (outbox_to self.new to).room }) }
    {
        match to {
            Peer::Machine(machine) => self.machines[machine.0 as usize].reserve(),
            Peer::Coordinator => self.coordinator.reserve(),
        }
    }

    /// The message waits behind the others for that peer. It takes no memory.
    pub fn put(&mut self, to: Peer, message: Message)
        requires peer { IsPeerOf self.old to }
        requires room { 0 < (outbox_to self.old to).room }
        ensures { self.new ≡ with_outbox self.old to
            (with_message (message_view message) (outbox_to self.old to)) }
    {
        match to {
            Peer::Machine(machine) => self.machines[machine.0 as usize].put(message),
            Peer::Coordinator => self.coordinator.put(message),
        }
    }

    /// Takes the first message that waits for a peer; `None` exactly where none waits.
    pub fn take(&mut self, to: Peer) -> Option<Message>
        ensures first { option_map message_view result ≡ slice_get (waiting_for self.old to) 0 }
        ensures behind { self.new ≡ with_outbox self.old to
            (without_first (outbox_to self.old to)) }
    {
        match to {
            Peer::Machine(machine) => {
                let place = machine.0 as usize;
                if place < self.machines.len() {
                    self.machines[place].take()
                } else {
                    None
                }
            }
            Peer::Coordinator => self.coordinator.take(),
        }
    }

    /// Whether a message waits for a peer.
    pub fn waits(&self, to: Peer) -> bool
        ensures { result ≡ has_waiting (outbox_to self.now to) }
    {
        match to {
            Peer::Machine(machine) => {
                let place = machine.0 as usize;
                place < self.machines.len() && self.machines[place].waits()
            }
            Peer::Coordinator => self.coordinator.waits(),
        }
    }

    /// The first machine from this one on for which a message waits, and else the coordinator where
    /// one waits for it. It looks at each machine.
    pub fn next_waiting(&self, from: MachineNo) -> Option<Peer>
        ensures { IsNextWaiting self.now from.0 result }
    {
        for place in from.0 as usize..self.machines.len() {
            if self.machines[place].waits() {
                return Some(Peer::Machine(MachineNo(place as u16)));
            }
        }
        if self.coordinator.waits() {
            Some(Peer::Coordinator)
        } else {
            None
        }
    }

    /// How many messages wait for machines. It looks at each machine.
    pub fn count_for_machines(&self) -> u128
        ensures { result ≡ sum_by (λ box. length box.messages) self.now.machines }
    {
        let mut count = 0;
        for one in self.machines.iter() {
            count += one.count() as u128;
        }
        count
    }

    /// Nothing waits any more. It takes no memory.
    pub fn clear(&mut self)
        ensures machines { self.new.machines ≡ map emptied self.old.machines }
        ensures coordinator { self.new.coordinator ≡ emptied self.old.coordinator }
    {
        for one in self.machines.iter_mut() {
            one.clear();
        }
        self.coordinator.clear();
    }
}
