//! A seat for each machine of a board and one for its coordinator.
ghost use Rattle.std.specs.Prelude.{◌≡◌, ◌+◌, ◌*◌, ◌^◌, ◌<◌, ◌≤◌, ◌++◌, ◌∷◌, ℕ, suc, List, [], length, slice_index_or, IfOk, OnOk};
ghost use Rattle.link_tables.specs.Seats.{Rests};
ghost use Rattle.wire_board.specs.Attempts.{AllFrom, AreNumbered, IsSeatOf, resting};
ghost use Rattle.wire_board.specs.Led.{Lead};
ghost use Rattle.wire_board.specs.Seats.{Sits};
ghost use Rattle.wire_board.specs.Stepping.{machines_at, machines_of};

use crate::boards::Board;
use crate::standings::{Leading, Member, Seated};
use cluster_step::clusters::{Link, SavingMachine};
use gl_base::NoMemory;
use link_tables::Place;
use std::alloc::Global;

/// A machine at a board: the machine, the place that it makes its steps with, and how many updates
/// it had completed as the attempt began.
#[derive(Drop)]
pub struct NodeSeat<M: SavingMachine> {
    pub member: Member<M>,
    pub place: Place<Seated<M>, Link>,
    pub before: u64,
}

/// The coordinator at a board, and the place that it makes its steps with.
#[derive(Drop)]
pub struct CoordSeat<M: SavingMachine> {
    pub lead: Leading,
    pub place: Place<Seated<M>, Link>,
}

impl<M: SavingMachine> Board<M> {
    /// Gives each machine a place of its own. The place that had all has the coordinator alone.
    /// `NoMemory` drops the machines.
    pub fn seat_each(
        &self,
        alloc: Global,
        done: &[u64],
        place: &mut Place<Seated<M>, Link>,
        members: Vec<Member<M>>,
    ) -> Result<Vec<NodeSeat<M>>, NoMemory>
        requires table { place.old.seat.table_id ≡ self.now.table.table.shared.table_id }
        requires all { (lead : Leading) × Rests place.old.seat.me (Lead lead)
            (resting members.items) }
        requires numbers { AreNumbered (suc (length members.items)) 0 members.items }
        ensures table { OnOk result (place.new.seat.table_id ≡ place.old.seat.table_id) }
        ensures alone { OnOk result ((lead : Leading) →
            Rests place.old.seat.me (Lead lead) (resting members.items) →
            Rests place.new.seat.me (Lead lead) []) }
        ensures many { IfOk result (λ seats. length seats.items ≡ length members.items) }
        ensures machines { IfOk result (λ seats.
            machines_at seats.items ≡ machines_of members.items) }
        ensures tables { IfOk result (λ seats. AllFrom (λ a seat.
            seat.place.seat.table_id ≡ self.now.table.table.shared.table_id) 0 seats.items) }
        ensures seats { IfOk result (λ seats. AllFrom (λ a seat.
            IsSeatOf M.represents (suc (length members.items)) done.now a seat.member
            seat.place.seat.me seat.before) 0 seats.items) }
    {
        let mut seats = Vec::with_capacity(alloc, members.len())?;
        for member in members {
            let seat = self.seat_one(done, place, member);
            seats.push_reserved(seat);
        }
        Ok(seats)
    }

    /// Gives the first machine behind the coordinator a place of its own.
    fn seat_one(
        &self,
        done: &[u64],
        place: &mut Place<Seated<M>, Link>,
        member: Member<M>,
    ) -> NodeSeat<M>
        requires table { place.old.seat.table_id ≡ self.now.table.table.shared.table_id }
        requires first { (lead : Leading) × (behind : List (Member M)) ×
            Rests place.old.seat.me (Lead lead) (resting (member ∷ behind)) }
        requires inside { suc member.number < member.peers }
        ensures table { place.new.seat.table_id ≡ place.old.seat.table_id }
        ensures behind { (lead : Leading) (behind : List (Member M)) →
            Rests place.old.seat.me (Lead lead) (resting (member ∷ behind)) →
            Rests place.new.seat.me (Lead lead) (resting behind) }
        ensures its_table { result.place.seat.table_id ≡ self.now.table.table.shared.table_id }
        ensures seat { IsSeatOf M.represents member.peers done.now member.number result.member
            result.place.seat.me result.before }
        ensures same { result.member ≡ member }
    {
        let before = before_of(done, member.number);
        let own = self.split(place);
        NodeSeat {
            member,
            place: own,
            before,
        }
    }

    /// Puts the machines' places behind the coordinator's, which is at rest. Each machine owes
    /// nothing then. `NoMemory` drops the machines.
    pub fn gather_each(
        &self,
        alloc: Global,
        place: &mut Place<Seated<M>, Link>,
        seats: Vec<NodeSeat<M>>,
        _peers: usize,
    ) -> Result<Vec<Member<M>>, NoMemory>
        requires table { place.old.seat.table_id ≡ self.now.table.table.shared.table_id }
        requires lead { (lead : Leading) × Rests place.old.seat.me (Lead lead) [] }
        requires tables { AllFrom (λ a seat.
            seat.place.seat.table_id ≡ self.now.table.table.shared.table_id) 0 seats.items }
        requires seats { AllFrom (λ a seat. (seat.member.number ≡ a) ×
            (seat.member.peers ≡ _peers) × Sits M.represents seat.member seat.place.seat.me)
            0 seats.items }
        ensures table { OnOk result (place.new.seat.table_id ≡ place.old.seat.table_id) }
        ensures all { IfOk result (λ members. (lead : Leading) →
            Rests place.old.seat.me (Lead lead) [] →
            Rests place.new.seat.me (Lead lead) (resting members.items)) }
        ensures many { IfOk result (λ members. length members.items ≡ length seats.items) }
        ensures machines { IfOk result (λ members.
            machines_of members.items ≡ machines_at seats.items) }
        ensures numbers { IfOk result (λ members. AreNumbered _peers 0 members.items) }
    {
        let mut members = Vec::with_capacity(alloc, seats.len())?;
        for seat in seats {
            let member = self.gather_one(place, seat);
            members.push_reserved(member);
        }
        Ok(members)
    }

    /// Puts a machine's place behind what the place has.
    fn gather_one(&self, place: &mut Place<Seated<M>, Link>, seat: NodeSeat<M>) -> Member<M>
        requires table { place.old.seat.table_id ≡ self.now.table.table.shared.table_id }
        requires its_table { seat.place.seat.table_id ≡ self.now.table.table.shared.table_id }
        requires lead { (lead : Leading) × (members : List (Member M)) ×
            Rests place.old.seat.me (Lead lead) (resting members) }
        requires sits { Sits M.represents seat.member seat.place.seat.me }
        ensures table { place.new.seat.table_id ≡ place.old.seat.table_id }
        ensures same { result ≡ seat.member }
        ensures behind { (lead : Leading) (members : List (Member M)) →
            Rests place.old.seat.me (Lead lead) (resting members) →
            Rests place.new.seat.me (Lead lead) (resting (members ++ seat.member ∷ [])) }
    {
        let NodeSeat {
            member,
            place: own,
            before: _,
        } = seat;
        let mut own = own;
        self.rest(&member, &mut own);
        self.gather(place, own);
        member
    }
}

/// How many updates the machine of this number had completed, where these are the counts.
fn before_of(done: &[u64], number: usize) -> u64
    ensures { slice_index_or done.now number 0 ≡ result }
{
    match done.get(number) {
        Some(before) => *before,
        None => 0,
    }
}
