//! The links between machines.
ghost use Rattle.std.specs.Prelude.{◌≡◌, ◌↔◌, ℕ, ◌<◌, ◌++◌, ◌∷◌, [], length, slice_get, slice_index_or, option_map, OnOk, OnSome, IfOk, IsTrue};
ghost use Rattle.std.specs.List.{All};
ghost use Rattle.cluster_step.specs.clusters.Inner.Writing.{behind_first, with_link_between, HasLinkBetween};
ghost use Rattle.cluster_step.specs.clusters.Links.{LinkView, message_view, link_between, told_on};
ghost use Rattle.cluster_laws.specs.cluster_core.Actions.{HasFirst};

use crate::clusters::link::Link;
use gl_base::{MachineNo, NoMemory};
use std::alloc::Global;
use std::marker::Model;
use wire::wire_msgs::Message;

/// A link from each machine to each one. Contracts see, for each machine, the list of the links
/// from it.
#[derive(Drop)]
pub struct Links {
    pub(crate) rows: Vec<Vec<Link>>,
}

impl Model for Links {
    ghost use Rattle.std.specs.Prelude.{List, map};
    ghost use Rattle.cluster_step.specs.clusters.Links.{LinkView};

    ghost Value = { List (List LinkView) };

    ghost view = { λ l. map (λ row. row.items) l.rows.items };
}

impl Links {
    /// Links between so many machines, with nothing on them.
    pub fn new(alloc: Global, machines: usize) -> Result<Links, NoMemory>
        ensures rows { IfOk result (λ l. length l ≡ machines) }
        ensures columns { IfOk result (λ l. (p : ℕ) → p < machines →
            length (slice_index_or l p []) ≡ machines) }
        ensures none { IfOk result (λ l. (p q : ℕ) → (link_between l p q).messages ≡ []) }
    {
        let mut rows = Vec::with_capacity(alloc, machines)?;
        for _ in 0..machines {
            rows.push_reserved(new_row(alloc, machines)?);
        }
        Ok(Links { rows })
    }

    /// Whether a message is on the link.
    pub fn has_message(&self, from: MachineNo, to: MachineNo) -> bool
        requires { HasLinkBetween self.now from.0 to.0 }
        ensures { IsTrue result ↔ HasFirst (told_on self.now from.0 to.0) }
    {
        !self.rows[from.0 as usize][to.0 as usize].is_empty()
    }

    /// Makes room for one more message on the link.
    pub fn reserve(&mut self, from: MachineNo, to: MachineNo) -> Result<(), NoMemory>
        requires { HasLinkBetween self.old from.0 to.0 }
        ensures room { OnOk result (0 < (link_between self.new from.0 to.0).room) }
        ensures same { (link_between self.new from.0 to.0).messages ≡
            (link_between self.old from.0 to.0).messages }
        ensures rest { self.new ≡ with_link_between self.old from.0 to.0
            (link_between self.new from.0 to.0) }
    {
        self.rows[from.0 as usize][to.0 as usize].reserve()
    }

    /// The message is the last one on the link.
    pub fn push(&mut self, from: MachineNo, to: MachineNo, message: Message)
        requires link { HasLinkBetween self.old from.0 to.0 }
        requires room { 0 < (link_between self.old from.0 to.0).room }
        ensures last { (link_between self.new from.0 to.0).messages ≡
            (link_between self.old from.0 to.0).messages ++ message_view message ∷ [] }
        ensures rest { self.new ≡ with_link_between self.old from.0 to.0
            (link_between self.new from.0 to.0) }
    {
        self.rows[from.0 as usize][to.0 as usize].push(message);
    }

    /// Takes the first message off the link. Its room is kept.
    pub fn take(&mut self, from: MachineNo, to: MachineNo) -> Option<Message>
        requires { HasLinkBetween self.old from.0 to.0 }
        ensures first { option_map message_view result ≡ slice_get
            (link_between self.old from.0 to.0).messages 0 }
        ensures behind { (link_between self.new from.0 to.0).messages ≡ behind_first
            (link_between self.old from.0 to.0).messages }
        ensures room { OnSome result (0 < (link_between self.new from.0 to.0).room) }
        ensures rest { self.new ≡ with_link_between self.old from.0 to.0
            (link_between self.new from.0 to.0) }
    {
        self.rows[from.0 as usize][to.0 as usize].take()
    }

    /// The message is the first one on the link.
    pub fn put_back(&mut self, from: MachineNo, to: MachineNo, message: Message)
        requires link { HasLinkBetween self.old from.0 to.0 }
        requires room { 0 < (link_between self.old from.0 to.0).room }
        ensures first { (link_between self.new from.0 to.0).messages ≡ message_view
            message ∷ (link_between self.old from.0 to.0).messages }
        ensures rest { self.new ≡ with_link_between self.old from.0 to.0
            (link_between self.new from.0 to.0) }
    {
        self.rows[from.0 as usize][to.0 as usize].put_back(message);
    }
}

/// So many links with nothing on them.
fn new_row(alloc: Global, machines: usize) -> Result<Vec<Link>, NoMemory>
    ensures many { IfOk result (λ row. length row.items ≡ machines) }
    ensures none { IfOk result (λ row. All (λ (link : LinkView). link.messages ≡ []) row.items) }
{
    let mut row = Vec::with_capacity(alloc, machines)?;
    for _ in 0..machines {
        row.push_reserved(Link::new(alloc));
    }
    Ok(row)
}
