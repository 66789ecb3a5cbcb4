//! Tickets that a machine's seat draws.
ghost use Rattle.std.specs.Prelude.{◌≡◌, ◌≢◌, ◌<◌, ◌≤◌, ℕ, [], None, IfNone, IfOk, IfSome, OnErr, OnOk};
ghost use Rattle.link_tables.specs.Seats.{Rests, saw, sight, word_at};
ghost use Rattle.coordinator.specs.machine_api.AtOnce.{HasUpdatedAtOnce};
ghost use Rattle.coordinator.specs.machine_api.Promises.{CanUpdate, HasDone, StandsStill, Update};
ghost use Rattle.wire_board.specs.Freeing.{IsFree};
ghost use Rattle.wire_board.specs.Led.{Node};
ghost use Rattle.wire_board.specs.Seats.{Sits, at_rest};
ghost use Rattle.wire_board.specs.Sights.{HasSeen, Sees};
ghost use Rattle.wire_board.specs.Standings.{CanBeginAtOnce, owing, owing_at_once};

use crate::boards::Board;
use crate::standings::{Member, Seated};
use cluster_step::clusters::{Link, SavingMachine};
use coordinator::machine_api::EagerMachine;
use gl_base::{NoMemory, ScopeId, Vertex};
use link_tables::Place;
use std::marker::Brand;

/// What came of a draw.
#[derive(Clone, Copy, Debug, PartialEq, Eq)]
pub enum Drawn {
    /// The update was made under the ticket.
    Made,
    /// The ticket was not the next one any more.
    Late,
}

impl<M: SavingMachine> Board<M> {
    /// Reads the next ticket; `None` comes only where none is left.
    pub fn next_ticket(&self, place: &mut Place<Seated<M>, Link>) -> Option<u64>
        requires table { place.old.seat.table_id ≡ self.now.table.table.shared.table_id }
        ensures table { place.new.seat.table_id ≡ place.old.seat.table_id }
        ensures next { IfSome result (λ ticket. (ticket < self.now.table.top) ×
            (place.new.seat.me ≡ (
              saw place.old.seat.me.0 (word_at self.now.table.many) ticket,
              place.old.seat.me.1,
            ))) }
        ensures spent { IfNone result ((next : ℕ) × (self.now.table.top ≤ next) ×
            (place.new.seat.me ≡ (
              saw place.old.seat.me.0 (word_at self.now.table.many) next,
              place.old.seat.me.1,
            ))) }
    {
        let ticket = self.table.next_ticket(place);
        if ticket < self.table.top() {
            Some(ticket)
        } else {
            None
        }
    }

    /// Draws this ticket and makes the update of a ready scope under it. `Late` comes only where
    /// another ticket is the next one. After `NoMemory` the ticket is drawn, and the seat owes the
    /// update: it makes no step more.
    pub fn draw(
        &self,
        member: &mut Member<M>,
        place: &mut Place<Seated<M>, Link>,
        scope: ScopeId,
        ticket: u64,
    ) -> Result<Drawn, NoMemory>
        requires table { place.old.seat.table_id ≡ self.now.table.table.shared.table_id }
        requires ticket { ticket < self.now.table.top }
        requires can { CanUpdate M.represents member.old.machine scope }
        requires free { IsFree M.represents
            self.now.table.table.shared.key.about.failures.value.items
            self.now.table.table.shared.key.about.done.value.items
            member.old.machine member.old.number }
        requires sits { Sits M.represents member.old place.old.seat.me }
        ensures table { place.new.seat.table_id ≡ place.old.seat.table_id }
        ensures sits { OnOk result (Sits M.represents member.new place.new.seat.me) }
        ensures same { (member.new.number ≡ member.old.number) ×
            (member.new.peers ≡ member.old.peers) }
        ensures made { IfOk result (λ drawn. drawn ≡ Drawn.Made →
            HasDone M.represents member.old.machine (Update scope ticket) member.new.machine ×
            HasSeen place.old.seat.me place.new.seat.me
            (sight (word_at self.now.table.many) ticket None)) }
        ensures late { IfOk result (λ drawn. drawn ≡ Drawn.Late →
            (member.new.machine ≡ member.old.machine)
            × (next : ℕ) × (next ≢ ticket) ×
            HasSeen place.old.seat.me place.new.seat.me
            (sight (word_at self.now.table.many) next None)) }
        ensures sees { Sees place.old.seat.me place.new.seat.me }
        ensures owes { OnErr result (StandsStill M.represents member.old.machine member.new.machine
            × Rests place.new.seat.me (Node (owing member.old scope ticket)) []) }
    {
        let won = self
            .table
            .draw::<Brand, Member<M>, ScopeId>(place, ticket, member, &scope);
        if !won {
            return Ok(Drawn::Late);
        }
        match member.machine.update(scope, ticket) {
            Ok(()) => Ok(Drawn::Made),
            Err(_) => Err(NoMemory),
        }
    }

    /// The machine's place has it as it is now: it owes nothing.
    pub fn rest(&self, member: &Member<M>, place: &mut Place<Seated<M>, Link>)
        requires table { place.old.seat.table_id ≡ self.now.table.table.shared.table_id }
        requires sits { Sits M.represents member.now place.old.seat.me }
        ensures table { place.new.seat.table_id ≡ place.old.seat.table_id }
        ensures rests { Rests place.new.seat.me (Node (at_rest member.now)) [] }
    {
        self.table.settle::<Brand, Member<M>>(place, member);
    }
}

impl<M: EagerMachine> Board<M> {
    /// Draws this ticket and makes the update at once of a vertex that was found under it. The
    /// answers are those of `draw`.
    pub fn draw_at_once(
        &self,
        member: &mut Member<M>,
        place: &mut Place<Seated<M>, Link>,
        v: Vertex,
        ticket: u64,
    ) -> Result<Drawn, NoMemory>
        requires table { place.old.seat.table_id ≡ self.now.table.table.shared.table_id }
        requires ticket { ticket < self.now.table.top }
        requires found { M.finds member.old.machine v }
        requires can { CanBeginAtOnce M.represents member.old.machine v.0 }
        requires free { IsFree M.represents
            self.now.table.table.shared.key.about.failures.value.items
            self.now.table.table.shared.key.about.done.value.items
            member.old.machine member.old.number }
        requires sits { Sits M.represents member.old place.old.seat.me }
        ensures table { place.new.seat.table_id ≡ place.old.seat.table_id }
        ensures sits { OnOk result (Sits M.represents member.new place.new.seat.me) }
        ensures same { (member.new.number ≡ member.old.number) ×
            (member.new.peers ≡ member.old.peers) }
        ensures made { IfOk result (λ drawn. drawn ≡ Drawn.Made →
            HasUpdatedAtOnce M.represents member.old.machine v.0 ticket member.new.machine ×
            HasSeen place.old.seat.me place.new.seat.me
            (sight (word_at self.now.table.many) ticket None)) }
        ensures late { IfOk result (λ drawn. drawn ≡ Drawn.Late →
            (member.new.machine ≡ member.old.machine)
            × (next : ℕ) × (next ≢ ticket) ×
            HasSeen place.old.seat.me place.new.seat.me
            (sight (word_at self.now.table.many) next None)) }
        ensures sees { Sees place.old.seat.me place.new.seat.me }
        ensures owes { OnErr result (StandsStill M.represents member.old.machine member.new.machine
            × Rests place.new.seat.me (Node (owing_at_once member.old v ticket)) []) }
    {
        let won = self
            .table
            .draw::<Brand, Member<M>, Vertex>(place, ticket, member, &v);
        if !won {
            return Ok(Drawn::Late);
        }
        member.machine.update_now(v, ticket)?;
        Ok(Drawn::Made)
    }
}
