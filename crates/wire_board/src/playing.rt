//! A board that is played on one thread: each seat has its turn, and then the next one.
ghost use Rattle.std.specs.Prelude.{◌≡◌, ◌+◌, ◌*◌, ◌^◌, ◌<◌, ◌≤◌, ◌∷◌, ℕ, suc, List, [], length, IfOk, OnOk};
ghost use Rattle.cluster_step.specs.trace.Traces.{IsSameAttempt, TraceGoesOn};
ghost use Rattle.link_tables.specs.Seats.{Rests};
ghost use Rattle.wire_board.specs.Attempts.{AllFrom, AreNumbered, IsBoardOf, IsSeatOf, resting};
ghost use Rattle.wire_board.specs.Led.{Lead};
ghost use Rattle.wire_board.specs.Receipts.{IsReceipt, entries_in};
ghost use Rattle.wire_board.specs.Seats.{Leads, Sits};

use crate::attempts::{Attempt, TOO_MANY};
use crate::boards::Board;
use crate::directing::Directed;
use crate::receipts::Receipt;
use crate::seats::{CoordSeat, NodeSeat};
use crate::turns::Worked;
use cluster_step::trace::Trace;
use coordinator::machine_api::EagerMachine;
use gl_base::{FailureAt, NoMemory};
use std::alloc::Global;

/// Plays the cluster of a trace on a board, on this thread, for so many rounds at most: until a
/// machine has reached the count of a failure, no ticket is left, a record is due, the end, or
/// nothing moves. The board is opened with the receipt of the same attempt so far, if there is one,
/// and leaves its own. Where a machine has failed, the run has ended or there are too many machines,
/// nothing happens, and the receipt comes back. `NoMemory` drops all.
pub fn play_on_board<M: EagerMachine>(
    alloc: Global,
    trace: Trace<M>,
    so_far: Option<Receipt>,
    rounds: u32,
) -> Result<(Trace<M>, Option<Receipt>), NoMemory>
    ensures same { IfOk result (λ t. IsSameAttempt (record trace { since = t.0.now }) t.0) }
    ensures goes_on { IfOk result (λ t. TraceGoesOn M.represents trace t.0) }
    ensures receipt { IfOk result (λ t.
        IsReceipt M.represents trace t.0 (entries_in so_far) (entries_in t.1)) }
{
    if trace.is_stopped() || !trace.are_all_awake() || trace.machines() >= TOO_MANY {
        let mut trace = trace;
        trace.remember();
        return Ok((trace, so_far));
    }
    let attempt = Attempt::open(alloc, trace, so_far)?;
    let attempt = attempt.played(alloc, rounds)?;
    let (trace, receipt) = attempt.closed(alloc)?;
    Ok((trace, Some(receipt)))
}

impl<M: EagerMachine> Attempt<M> {
    /// Plays the cluster on the board, for so many rounds at most. All parts are in one place
    /// again. `NoMemory` drops all.
    fn played(self, alloc: Global, rounds: u32) -> Result<Attempt<M>, NoMemory>
        requires board { IsBoardOf M.represents self.trace self.failed.items
            self.board.table.table.shared.key.about.machines
            self.board.table.table.shared.key.about.failures.value.items
            self.board.table.table.shared.key.about.done.value.items
            self.board.table.table.shared.key.about.opening.value
            self.board.table.many self.board.table.top }
        requires table { self.place.seat.table_id ≡ self.board.table.table.shared.table_id }
        requires place { Rests self.place.seat.me (Lead self.lead) (resting self.members.items) }
        requires lead { self.lead.number ≡ length self.trace.now.machines.items }
        requires many { length self.members.items ≡ length self.trace.now.machines.items }
        requires numbers { AreNumbered (suc (length self.trace.now.machines.items)) 0
            self.members.items }
        ensures trace { IfOk result (λ a. a.trace ≡ self.trace) }
        ensures opened { IfOk result (λ a. a.opened ≡ self.opened) }
        ensures board { IfOk result (λ a. IsBoardOf M.represents self.trace a.failed.items
            a.board.table.table.shared.key.about.machines
            a.board.table.table.shared.key.about.failures.value.items
            a.board.table.table.shared.key.about.done.value.items
            a.board.table.table.shared.key.about.opening.value
            a.board.table.many a.board.table.top) }
        ensures table { IfOk result (λ a.
            a.place.seat.table_id ≡ a.board.table.table.shared.table_id) }
        ensures place { IfOk result (λ a.
            Rests a.place.seat.me (Lead a.lead) (resting a.members.items)) }
        ensures lead { IfOk result (λ a. a.lead.number ≡ length self.trace.now.machines.items) }
        ensures many { IfOk result (λ a.
            length a.members.items ≡ length self.trace.now.machines.items) }
        ensures numbers { IfOk result (λ a.
            AreNumbered (suc (length self.trace.now.machines.items)) 0 a.members.items) }
    {
        let Attempt {
            trace,
            opened,
            failed,
            board,
            place,
            lead,
            members,
        } = self;
        let mut first = CoordSeat { lead, place };
        let done = trace.done().as_slice();
        let peers = members.len() + 1;
        let mut seats = board.seat_each(alloc, done, &mut first.place, members)?;
        let failures = trace.failures().as_slice();
        board.play(alloc, failures, &mut first, &mut seats, rounds)?;
        let CoordSeat { lead, place } = first;
        let mut place = place;
        board.rest_lead(&lead, &mut place);
        let members = board.gather_each(alloc, &mut place, seats, peers)?;
        Ok(Attempt {
            trace,
            opened,
            failed,
            board,
            place,
            lead,
            members,
        })
    }
}

impl<M: EagerMachine> Board<M> {
    /// Plays so many rounds at most. It stops sooner once the halt is up, which is raised where a
    /// machine has reached the count of a failure, no ticket is left, a record is due, the end, or
    /// nothing has moved in a round.
    fn play(
        &self,
        alloc: Global,
        failures: &[FailureAt],
        first: &mut CoordSeat<M>,
        seats: &mut Vec<NodeSeat<M>>,
        rounds: u32,
    ) -> Result<(), NoMemory>
        requires links { (suc (length seats.old.items) * suc (length seats.old.items) ≡
            self.now.table.many) × (suc (length seats.old.items) < 2 ^ 16) }
        requires job { failures.now ≡ self.now.table.table.shared.key.about.failures.value.items }
        requires first { (first.old.place.seat.table_id ≡ self.now.table.table.shared.table_id) ×
            (first.old.lead.number ≡ length seats.old.items) }
        requires leads { Leads first.old.lead [] first.old.place.seat.me }
        requires tables { AllFrom (λ a seat.
            seat.place.seat.table_id ≡ self.now.table.table.shared.table_id) 0 seats.old.items }
        requires seats { AllFrom (λ a seat. IsSeatOf M.represents (suc (length seats.old.items))
            self.now.table.table.shared.key.about.done.value.items a seat.member
            seat.place.seat.me seat.before) 0 seats.old.items }
        ensures first { OnOk result
            ((first.new.place.seat.table_id ≡ self.now.table.table.shared.table_id) ×
            (first.new.lead.number ≡ first.old.lead.number)) }
        ensures leads { OnOk result (Leads first.new.lead [] first.new.place.seat.me) }
        ensures many { OnOk result (length seats.new.items ≡ length seats.old.items) }
        ensures tables { OnOk result (AllFrom (λ a seat.
            seat.place.seat.table_id ≡ self.now.table.table.shared.table_id) 0 seats.new.items) }
        ensures seats { OnOk result (AllFrom (λ a seat.
            IsSeatOf M.represents (suc (length seats.old.items))
            self.now.table.table.shared.key.about.done.value.items a seat.member
            seat.place.seat.me seat.before) 0 seats.new.items) }
    {
        for _ in 0..rounds {
            let moved = self.turns(alloc, failures, seats)?;
            self.direct_first(alloc, first, moved)?;
            if self.is_halted(&mut first.place) {
                return Ok(());
            }
        }
        Ok(())
    }

    /// Each machine has its turn. The halt is raised where one has reached the count of a failure,
    /// or found no ticket. Says whether anything moved.
    fn turns(
        &self,
        alloc: Global,
        failures: &[FailureAt],
        seats: &mut Vec<NodeSeat<M>>,
    ) -> Result<bool, NoMemory>
        requires links { (suc (length seats.old.items) * suc (length seats.old.items) ≡
            self.now.table.many) × (suc (length seats.old.items) < 2 ^ 16) }
        requires job { failures.now ≡ self.now.table.table.shared.key.about.failures.value.items }
        requires tables { AllFrom (λ a seat.
            seat.place.seat.table_id ≡ self.now.table.table.shared.table_id) 0 seats.old.items }
        requires seats { AllFrom (λ a seat. IsSeatOf M.represents (suc (length seats.old.items))
            self.now.table.table.shared.key.about.done.value.items a seat.member
            seat.place.seat.me seat.before) 0 seats.old.items }
        ensures many { OnOk result (length seats.new.items ≡ length seats.old.items) }
        ensures tables { OnOk result (AllFrom (λ a seat.
            seat.place.seat.table_id ≡ self.now.table.table.shared.table_id) 0 seats.new.items) }
        ensures seats { OnOk result (AllFrom (λ a seat.
            IsSeatOf M.represents (suc (length seats.old.items))
            self.now.table.table.shared.key.about.done.value.items a seat.member
            seat.place.seat.me seat.before) 0 seats.new.items) }
    {
        let mut moved = false;
        for a in 0..seats.len() {
            if self.turn_of(alloc, failures, &mut seats[a])? {
                moved = true;
            }
        }
        Ok(moved)
    }

    /// The machine of the seat has its turn. The halt is raised where it has reached the count of a
    /// failure, or found no ticket. Says whether anything moved.
    fn turn_of(
        &self,
        alloc: Global,
        failures: &[FailureAt],
        seat: &mut NodeSeat<M>,
    ) -> Result<bool, NoMemory>
        requires table { seat.old.place.seat.table_id ≡ self.now.table.table.shared.table_id }
        requires links { (seat.old.member.peers * seat.old.member.peers ≡ self.now.table.many) ×
            (seat.old.member.peers < 2 ^ 16) }
        requires job { failures.now ≡ self.now.table.table.shared.key.about.failures.value.items }
        requires seat { IsSeatOf M.represents seat.old.member.peers
            self.now.table.table.shared.key.about.done.value.items seat.old.member.number
            seat.old.member seat.old.place.seat.me seat.old.before }
        ensures table { OnOk result
            (seat.new.place.seat.table_id ≡ self.now.table.table.shared.table_id) }
        ensures seat { OnOk result (IsSeatOf M.represents seat.old.member.peers
            self.now.table.table.shared.key.about.done.value.items seat.old.member.number
            seat.new.member seat.new.place.seat.me seat.new.before) }
    {
        let before = seat.before;
        match self.turn(alloc, &mut seat.member, &mut seat.place, failures, before)? {
            Worked::Some => Ok(true),
            Worked::Nothing => Ok(false),
            Worked::Reached | Worked::Spent => {
                self.raise(&mut seat.place);
                Ok(true)
            }
        }
    }

    /// The coordinator has its turn. The halt is raised where a record is due, the end, or nothing
    /// has moved.
    fn direct_first(
        &self,
        alloc: Global,
        first: &mut CoordSeat<M>,
        moved: bool,
    ) -> Result<(), NoMemory>
        requires table { first.old.place.seat.table_id ≡ self.now.table.table.shared.table_id }
        requires links { (suc first.old.lead.number * suc first.old.lead.number ≡
            self.now.table.many) × (suc first.old.lead.number < 2 ^ 16) }
        requires leads { Leads first.old.lead [] first.old.place.seat.me }
        ensures table { OnOk result
            (first.new.place.seat.table_id ≡ self.now.table.table.shared.table_id) }
        ensures number { OnOk result (first.new.lead.number ≡ first.old.lead.number) }
        ensures leads { OnOk result (Leads first.new.lead [] first.new.place.seat.me) }
    {
        match self.direct(alloc, &mut first.lead, &mut first.place, moved)? {
            Directed::Moved => (),
            Directed::Nothing | Directed::Ending => self.raise(&mut first.place),
        }
        Ok(())
    }
}
