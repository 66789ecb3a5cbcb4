//! A board that is played step by step, on one thread.
ghost use Rattle.std.specs.Prelude.{◌≡◌, ◌+◌, ◌*◌, ◌^◌, ◌<◌, ◌≤◌, ◌∷◌, ℕ, suc, true, List, [], length, IfOk, OnOk};
ghost use Rattle.cluster_step.specs.trace.Traces.{IsSameAttempt, TraceGoesOn};
ghost use Rattle.link_tables.specs.Seats.{Rests};
ghost use Rattle.wire_board.specs.Acts.{HasMovedIf};
ghost use Rattle.wire_board.specs.Attempts.{AllFrom, AreNumbered, IsBoardOf, IsSeatOf, resting};
ghost use Rattle.wire_board.specs.Directing.{HasDirectedIf};
ghost use Rattle.wire_board.specs.Led.{Lead};
ghost use Rattle.wire_board.specs.Seats.{Leads, Sits};
ghost use Rattle.wire_board.specs.Stepping.{HasMadeByOne, HasStepped, machines_at, machines_of};

use crate::attempts::{Attempt, TOO_MANY};
use crate::boards::Board;
use crate::directing::is_led;
use crate::failing::is_free;
use crate::moving::{has_come, has_gone};
use crate::seats::{CoordSeat, NodeSeat};
use crate::turns::{either, is_made};
use cluster_step::trace::Trace;
use coordinator::machine_api::EagerMachine;
use gl_base::{FailureAt, MachineNo, NoMemory};
use std::alloc::Global;

/// What one seat does in a step.
#[derive(Clone, Copy, Debug, PartialEq, Eq)]
pub enum SeatStep {
    /// A machine does something.
    Node(MachineNo, NodeStep),
    /// The coordinator tells a machine a call.
    TellCall(MachineNo),
    /// The coordinator hears a report of a machine.
    HearReport(MachineNo),
    /// The coordinator does what is due of its own.
    Lead,
}

/// What a machine does in a step.
#[derive(Clone, Copy, Debug, PartialEq, Eq)]
pub enum NodeStep {
    /// It hears another one.
    Hear(MachineNo),
    /// It tells another one.
    Tell(MachineNo),
    /// It does what needs no ticket and no message.
    Settle,
    /// It makes an update, or admits a scope.
    Work,
    /// It tells the coordinator a report.
    TellReport,
    /// It hears a call of the coordinator.
    HearCall,
}

/// Makes these steps on a board with the cluster of a trace, on this thread, and says whether the
/// last one moved anything: `true` comes only where a seat has made an event. A step of a seat that
/// is not there moves nothing, and no machine makes an update or hears a call behind the count of a
/// failure. Where a machine has failed, the run has ended or there are too many machines, nothing
/// happens. `NoMemory` drops the trace.
pub fn step_on_board<M: EagerMachine>(
    alloc: Global,
    trace: Trace<M>,
    steps: &[SeatStep],
) -> Result<(Trace<M>, bool), NoMemory>
    ensures same { IfOk result (λ t. IsSameAttempt (record trace { since = t.0.now }) t.0) }
    ensures goes_on { IfOk result (λ t. TraceGoesOn M.represents trace t.0) }
    ensures moved { IfOk result (λ t.
        HasStepped M.represents (length trace.now.machines.items)
        trace.now.machines.items trace.now.coordinator
        t.0.now.machines.items t.0.now.coordinator t.1) }
{
    if trace.is_stopped() || !trace.are_all_awake() || trace.machines() >= TOO_MANY {
        let mut trace = trace;
        trace.remember();
        return Ok((trace, false));
    }
    let attempt = Attempt::open(alloc, trace, None)?;
    let (attempt, moved) = attempt.stepped(alloc, steps)?;
    let trace = attempt.joined(alloc)?;
    Ok((trace, moved))
}

impl<M: EagerMachine> Attempt<M> {
    /// Makes these steps on the board, and says whether the last one moved anything. All parts are
    /// in one place again. `NoMemory` drops all.
    fn stepped(self, alloc: Global, steps: &[SeatStep]) -> Result<(Attempt<M>, bool), NoMemory>
        requires board { IsBoardOf M.represents self.trace self.failed.items
            self.board.table.table.shared.key.about.machines
            self.board.table.table.shared.key.about.failures.value.items
            self.board.table.table.shared.key.about.done.value.items
            self.board.table.table.shared.key.about.opening.value
            self.board.table.many self.board.table.top }
        requires table { self.place.seat.table_id ≡ self.board.table.table.shared.table_id }
        requires place { Rests self.place.seat.me (Lead self.lead) (resting self.members.items) }
        requires lead { self.lead.number ≡ length self.trace.now.machines.items }
        requires many { length self.members.items ≡ length self.trace.now.machines.items }
        requires numbers { AreNumbered (suc (length self.trace.now.machines.items)) 0
            self.members.items }
        ensures trace { IfOk result (λ t. t.0.trace ≡ self.trace) }
        ensures board { IfOk result (λ t. IsBoardOf M.represents self.trace t.0.failed.items
            t.0.board.table.table.shared.key.about.machines
            t.0.board.table.table.shared.key.about.failures.value.items
            t.0.board.table.table.shared.key.about.done.value.items
            t.0.board.table.table.shared.key.about.opening.value
            t.0.board.table.many t.0.board.table.top) }
        ensures table { IfOk result (λ t.
            t.0.place.seat.table_id ≡ t.0.board.table.table.shared.table_id) }
        ensures place { IfOk result (λ t.
            Rests t.0.place.seat.me (Lead t.0.lead) (resting t.0.members.items)) }
        ensures lead { IfOk result (λ t. t.0.lead.number ≡ length self.trace.now.machines.items) }
        ensures many { IfOk result (λ t.
            length t.0.members.items ≡ length self.trace.now.machines.items) }
        ensures numbers { IfOk result (λ t.
            AreNumbered (suc (length self.trace.now.machines.items)) 0 t.0.members.items) }
        ensures moved { IfOk result (λ t.
            HasStepped M.represents (length self.trace.now.machines.items)
            (machines_of self.members.items) self.lead.coordinator
            (machines_of t.0.members.items) t.0.lead.coordinator t.1) }
    {
        let Attempt {
            trace,
            opened,
            failed,
            board,
            place,
            lead,
            members,
        } = self;
        let mut first = CoordSeat { lead, place };
        let done = trace.done().as_slice();
        let peers = members.len() + 1;
        let mut seats = board.seat_each(alloc, done, &mut first.place, members)?;
        let failures = trace.failures().as_slice();
        let moved = board.make_steps(alloc, failures, &mut first, &mut seats, steps)?;
        let CoordSeat { lead, place } = first;
        let mut place = place;
        board.rest_lead(&lead, &mut place);
        let members = board.gather_each(alloc, &mut place, seats, peers)?;
        let attempt = Attempt {
            trace,
            opened,
            failed,
            board,
            place,
            lead,
            members,
        };
        Ok((attempt, moved))
    }
}

impl<M: EagerMachine> Board<M> {
    /// Makes these steps, and says whether the last one moved anything.
    fn make_steps(
        &self,
        alloc: Global,
        failures: &[FailureAt],
        first: &mut CoordSeat<M>,
        seats: &mut Vec<NodeSeat<M>>,
        steps: &[SeatStep],
    ) -> Result<bool, NoMemory>
        requires links { (suc (length seats.old.items) * suc (length seats.old.items) ≡
            self.now.table.many) × (suc (length seats.old.items) < 2 ^ 16) }
        requires job { failures.now ≡ self.now.table.table.shared.key.about.failures.value.items }
        requires first { (first.old.place.seat.table_id ≡ self.now.table.table.shared.table_id) ×
            (first.old.lead.number ≡ length seats.old.items) }
        requires leads { Leads first.old.lead [] first.old.place.seat.me }
        requires tables { AllFrom (λ a seat.
            seat.place.seat.table_id ≡ self.now.table.table.shared.table_id) 0 seats.old.items }
        requires seats { AllFrom (λ a seat. IsSeatOf M.represents (suc (length seats.old.items))
            self.now.table.table.shared.key.about.done.value.items a seat.member
            seat.place.seat.me seat.before) 0 seats.old.items }
        ensures first { OnOk result
            ((first.new.place.seat.table_id ≡ self.now.table.table.shared.table_id) ×
            (first.new.lead.number ≡ first.old.lead.number)) }
        ensures leads { OnOk result (Leads first.new.lead [] first.new.place.seat.me) }
        ensures many { OnOk result (length seats.new.items ≡ length seats.old.items) }
        ensures tables { OnOk result (AllFrom (λ a seat.
            seat.place.seat.table_id ≡ self.now.table.table.shared.table_id) 0 seats.new.items) }
        ensures seats { OnOk result (AllFrom (λ a seat.
            IsSeatOf M.represents (suc (length seats.old.items))
            self.now.table.table.shared.key.about.done.value.items a seat.member
            seat.place.seat.me seat.before) 0 seats.new.items) }
        ensures moved { IfOk result (λ moved.
            HasStepped M.represents (length seats.old.items)
            (machines_at seats.old.items) first.old.lead.coordinator
            (machines_at seats.new.items) first.new.lead.coordinator moved) }
    {
        let mut moved = false;
        for step in steps {
            let here = self.step_at(alloc, failures, seats, *step)?;
            let there = self.step_first(alloc, first, *step)?;
            moved = either(here, there);
        }
        Ok(moved)
    }

    /// Where the step is that of a machine, and there is such a machine, it makes the step. Says
    /// whether anything moved.
    fn step_at(
        &self,
        alloc: Global,
        failures: &[FailureAt],
        seats: &mut Vec<NodeSeat<M>>,
        step: SeatStep,
    ) -> Result<bool, NoMemory>
        requires links { (suc (length seats.old.items) * suc (length seats.old.items) ≡
            self.now.table.many) × (suc (length seats.old.items) < 2 ^ 16) }
        requires job { failures.now ≡ self.now.table.table.shared.key.about.failures.value.items }
        requires tables { AllFrom (λ a seat.
            seat.place.seat.table_id ≡ self.now.table.table.shared.table_id) 0 seats.old.items }
        requires seats { AllFrom (λ a seat. IsSeatOf M.represents (suc (length seats.old.items))
            self.now.table.table.shared.key.about.done.value.items a seat.member
            seat.place.seat.me seat.before) 0 seats.old.items }
        ensures many { OnOk result (length seats.new.items ≡ length seats.old.items) }
        ensures tables { OnOk result (AllFrom (λ a seat.
            seat.place.seat.table_id ≡ self.now.table.table.shared.table_id) 0 seats.new.items) }
        ensures seats { OnOk result (AllFrom (λ a seat.
            IsSeatOf M.represents (suc (length seats.old.items))
            self.now.table.table.shared.key.about.done.value.items a seat.member
            seat.place.seat.me seat.before) 0 seats.new.items) }
        ensures moved { IfOk result (λ moved.
            HasMadeByOne M.represents (length seats.old.items)
            (machines_at seats.old.items) (machines_at seats.new.items) moved) }
    {
        let SeatStep::Node(at, what) = step else {
            return Ok(false);
        };
        let a = at.0 as usize;
        if a >= seats.len() {
            return Ok(false);
        }
        self.step_of(alloc, failures, &mut seats[a], what)
    }

    /// The machine of the seat makes a step. Says whether anything moved.
    fn step_of(
        &self,
        alloc: Global,
        failures: &[FailureAt],
        seat: &mut NodeSeat<M>,
        what: NodeStep,
    ) -> Result<bool, NoMemory>
        requires table { seat.old.place.seat.table_id ≡ self.now.table.table.shared.table_id }
        requires links { (seat.old.member.peers * seat.old.member.peers ≡ self.now.table.many) ×
            (seat.old.member.peers < 2 ^ 16) }
        requires job { failures.now ≡ self.now.table.table.shared.key.about.failures.value.items }
        requires seat { IsSeatOf M.represents seat.old.member.peers
            self.now.table.table.shared.key.about.done.value.items seat.old.member.number
            seat.old.member seat.old.place.seat.me seat.old.before }
        ensures table { OnOk result
            (seat.new.place.seat.table_id ≡ self.now.table.table.shared.table_id) }
        ensures seat { OnOk result (IsSeatOf M.represents seat.old.member.peers
            self.now.table.table.shared.key.about.done.value.items seat.old.member.number
            seat.new.member seat.new.place.seat.me seat.new.before) }
        ensures moved { IfOk result (λ moved.
            HasMovedIf M.represents self.now.table.many seat.old.member.peers
            seat.old.member.number seat.old.member.machine seat.old.place.seat.me
            seat.new.member.machine seat.new.place.seat.me moved) }
    {
        let peers = seat.member.peers;
        match what {
            NodeStep::Hear(from) if (from.0 as usize) + 1 < peers => {
                self.hear_some(alloc, &mut seat.member, &mut seat.place, from)
            }
            NodeStep::Tell(to) if (to.0 as usize) + 1 < peers => {
                self.tell_some(alloc, &mut seat.member, &mut seat.place, to)
            }
            NodeStep::Hear(_) | NodeStep::Tell(_) => Ok(false),
            NodeStep::Settle => self.settle(&mut seat.member, &seat.place),
            NodeStep::TellReport => {
                self.tell_report_if(alloc, &mut seat.member, &mut seat.place)
            }
            NodeStep::Work | NodeStep::HearCall => self.free_step_of(alloc, failures, seat, what),
        }
    }

    /// The machine of the seat makes a step that only one makes that has reached the count of no
    /// failure: it hears a call, or else works. Says whether anything moved.
    fn free_step_of(
        &self,
        alloc: Global,
        failures: &[FailureAt],
        seat: &mut NodeSeat<M>,
        what: NodeStep,
    ) -> Result<bool, NoMemory>
        requires table { seat.old.place.seat.table_id ≡ self.now.table.table.shared.table_id }
        requires links { (seat.old.member.peers * seat.old.member.peers ≡ self.now.table.many) ×
            (seat.old.member.peers < 2 ^ 16) }
        requires job { failures.now ≡ self.now.table.table.shared.key.about.failures.value.items }
        requires seat { IsSeatOf M.represents seat.old.member.peers
            self.now.table.table.shared.key.about.done.value.items seat.old.member.number
            seat.old.member seat.old.place.seat.me seat.old.before }
        ensures table { OnOk result
            (seat.new.place.seat.table_id ≡ self.now.table.table.shared.table_id) }
        ensures seat { OnOk result (IsSeatOf M.represents seat.old.member.peers
            self.now.table.table.shared.key.about.done.value.items seat.old.member.number
            seat.new.member seat.new.place.seat.me seat.new.before) }
        ensures moved { IfOk result (λ moved.
            HasMovedIf M.represents self.now.table.many seat.old.member.peers
            seat.old.member.number seat.old.member.machine seat.old.place.seat.me
            seat.new.member.machine seat.new.place.seat.me moved) }
    {
        if !is_free(failures, &seat.member, seat.before) {
            return Ok(false);
        }
        if what == NodeStep::HearCall {
            return self.hear_call_if(alloc, &mut seat.member, &mut seat.place);
        }
        let work = self.work(&mut seat.member, &mut seat.place)?;
        Ok(is_made(work))
    }

    /// Where the step is the coordinator's, it makes the step, and puts a wave out where one is
    /// due. Says whether anything moved.
    fn step_first(
        &self,
        alloc: Global,
        first: &mut CoordSeat<M>,
        step: SeatStep,
    ) -> Result<bool, NoMemory>
        requires table { first.old.place.seat.table_id ≡ self.now.table.table.shared.table_id }
        requires links { (suc first.old.lead.number * suc first.old.lead.number ≡
            self.now.table.many) × (suc first.old.lead.number < 2 ^ 16) }
        requires leads { Leads first.old.lead [] first.old.place.seat.me }
        ensures table { OnOk result
            (first.new.place.seat.table_id ≡ self.now.table.table.shared.table_id) }
        ensures number { OnOk result (first.new.lead.number ≡ first.old.lead.number) }
        ensures leads { OnOk result (Leads first.new.lead [] first.new.place.seat.me) }
        ensures led { IfOk result (λ moved. HasDirectedIf first.old.lead.number
            first.old.lead.coordinator first.old.place.seat.me
            first.new.lead.coordinator first.new.place.seat.me moved) }
    {
        let machines = first.lead.number;
        match step {
            SeatStep::TellCall(to) if (to.0 as usize) < machines => {
                let how = self.tell_call(alloc, &mut first.lead, &mut first.place, to)?;
                Ok(has_gone(how))
            }
            SeatStep::HearReport(from) if (from.0 as usize) < machines => {
                let how = self.hear_report(alloc, &mut first.lead, &mut first.place, from);
                Ok(has_come(how))
            }
            SeatStep::Lead => {
                let how = self.lead(&mut first.lead, &mut first.place, false)?;
                Ok(is_led(how))
            }
            _ => Ok(false),
        }
    }
}
