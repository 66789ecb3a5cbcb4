//! A trace whose cluster is on a board for a while.
ghost use Rattle.std.specs.Prelude.{◌≡◌, ◌+◌, ◌*◌, ◌^◌, ◌<◌, ◌≤◌, ◌++◌, ◌∷◌, ℕ, suc, false, List, [], length, map, IfOk, OnOk};
ghost use Rattle.cluster_step.specs.clusters.Clusters.{StandsForSaving};
ghost use Rattle.cluster_step.specs.trace.Later.{apart_now};
ghost use Rattle.cluster_step.specs.trace.Traces.{IsSameAttempt, TraceGoesOn};
ghost use Rattle.link_tables.specs.Seats.{Rests};
ghost use Rattle.wire_board.specs.Attempts.{AreAwake, AreNumbered, IsBoardOf, numbered_members, resting};
ghost use Rattle.wire_board.specs.Led.{Lead};
ghost use Rattle.wire_board.specs.Receipts.{AreLengthsOf, IsReceipt, entries_in};
ghost use Rattle.wire_board.specs.Stepping.{machines_of};

use crate::boards::{About, Board};
use crate::receipts::{Opened, Receipt};
use crate::standings::{Leading, Member, Seated};
use cluster_step::clusters::{Link, Links, Parts, SavingMachine};
use cluster_step::trace::{OpenTrace, Trace};
use gl_base::NoMemory;
use link_tables::Place;
use std::alloc::Global;
use std::snapshot::Snapshot;

/// The first number of machines that is too much for a board.
pub const TOO_MANY: usize = 4095;

/// A trace whose cluster is on a board: what stays of the trace, what its receipt is made from,
/// which machines have failed, the board, a place that has all parts, the coordinator, and the
/// machines.
#[derive(Drop)]
pub struct Attempt<M: SavingMachine> {
    pub trace: OpenTrace<M>,
    pub opened: Opened,
    pub failed: Vec<bool>,
    pub board: Board<M>,
    pub place: Place<Seated<M>, Link>,
    pub lead: Leading,
    pub members: Vec<Member<M>>,
}

impl<M: SavingMachine> Attempt<M> {
    /// Takes the cluster of a trace onto a board, with the receipt of the same attempt so far, if
    /// there is one. One place has all parts. `NoMemory` drops the trace.
    pub fn open(
        alloc: Global,
        trace: Trace<M>,
        so_far: Option<Receipt>,
    ) -> Result<Attempt<M>, NoMemory>
        requires awake { AreAwake trace.now.failed.items }
        requires runs { trace.now.stopped ≡ false }
        requires few { length trace.now.machines.items < 4095 }
        ensures trace { IfOk result (λ a. a.trace ≡ apart_now trace) }
        ensures so_far { IfOk result (λ a. a.opened.so_far ≡ so_far) }
        ensures lengths { IfOk result (λ a.
            AreLengthsOf M.represents a.trace a.opened.lengths.items) }
        ensures board { IfOk result (λ a. IsBoardOf M.represents a.trace a.failed.items
            a.board.table.table.shared.key.about.machines
            a.board.table.table.shared.key.about.failures.value.items
            a.board.table.table.shared.key.about.done.value.items
            a.board.table.table.shared.key.about.opening.value
            a.board.table.many a.board.table.top) }
        ensures table { IfOk result (λ a.
            a.place.seat.table_id ≡ a.board.table.table.shared.table_id) }
        ensures place { IfOk result (λ a.
            Rests a.place.seat.me (Lead a.lead) (resting a.members.items)) }
        ensures lead { IfOk result (λ a.
            (a.lead.number ≡ length trace.now.machines.items) ×
            (a.lead.coordinator ≡ trace.now.coordinator)) }
        ensures members { IfOk result (λ a. a.members.items ≡
            numbered_members (suc (length trace.now.machines.items)) 0
            trace.now.machines.items) }
    {
        let opened = Opened::of(alloc, &trace, so_far)?;
        let (trace, parts) = trace.apart();
        let about = About {
            machines: parts.machines.len(),
            failures: Snapshot::of(trace.failures()),
            done: Snapshot::of(trace.done()),
            opening: Snapshot::of(&parts),
        };
        Attempt::on_board(alloc, trace, opened, parts, about)
    }

    /// Takes these parts of a cluster onto a board.
    fn on_board(
        alloc: Global,
        trace: OpenTrace<M>,
        opened: Opened,
        parts: Parts<M>,
        about: About<M>,
    ) -> Result<Attempt<M>, NoMemory>
        requires parts { parts ≡ trace.now }
        requires stands { StandsForSaving M.represents trace.now }
        requires about { (about.machines ≡ length trace.now.machines.items) ×
            (about.failures.value.items ≡ trace.failures) × (about.done.value.items ≡ trace.done) ×
            (about.opening.value ≡ trace.now) }
        requires awake { AreAwake trace.now.failed.items }
        requires runs { trace.now.stopped ≡ false }
        requires few { length trace.now.machines.items < 4095 }
        ensures trace { IfOk result (λ a. a.trace ≡ trace) }
        ensures opened { IfOk result (λ a. a.opened ≡ opened) }
        ensures board { IfOk result (λ a. IsBoardOf M.represents trace a.failed.items
            a.board.table.table.shared.key.about.machines
            a.board.table.table.shared.key.about.failures.value.items
            a.board.table.table.shared.key.about.done.value.items
            a.board.table.table.shared.key.about.opening.value
            a.board.table.many a.board.table.top) }
        ensures table { IfOk result (λ a.
            a.place.seat.table_id ≡ a.board.table.table.shared.table_id) }
        ensures place { IfOk result (λ a.
            Rests a.place.seat.me (Lead a.lead) (resting a.members.items)) }
        ensures lead { IfOk result (λ a.
            (a.lead.number ≡ length trace.now.machines.items) ×
            (a.lead.coordinator ≡ trace.now.coordinator)) }
        ensures members { IfOk result (λ a. a.members.items ≡
            numbered_members (suc (length trace.now.machines.items)) 0
            trace.now.machines.items) }
    {
        let Parts {
            machines,
            failed,
            links,
            coordinator,
            next,
            left,
            stopped: _,
        } = parts;
        let number = machines.len();
        let list = links.into_list(alloc)?;
        let members = with_numbers(alloc, machines, number + 1)?;
        let (board, place) = Board::new(alloc, list, next, left, about)?;
        Ok(Attempt {
            trace,
            opened,
            failed,
            board,
            place,
            lead: Leading {
                number,
                coordinator,
            },
            members,
        })
    }

    /// Takes the cluster off the board again. The trace remembers it, and has gone on in the same
    /// attempt, without an acknowledgement of a snapshot. `NoMemory` drops the trace.
    pub fn joined(self, alloc: Global) -> Result<Trace<M>, NoMemory>
        requires board { IsBoardOf M.represents self.trace self.failed.items
            self.board.table.table.shared.key.about.machines
            self.board.table.table.shared.key.about.failures.value.items
            self.board.table.table.shared.key.about.done.value.items
            self.board.table.table.shared.key.about.opening.value
            self.board.table.many self.board.table.top }
        requires table { self.place.seat.table_id ≡ self.board.table.table.shared.table_id }
        requires place { Rests self.place.seat.me (Lead self.lead) (resting self.members.items) }
        requires lead { self.lead.number ≡ length self.trace.now.machines.items }
        requires many { length self.members.items ≡ length self.trace.now.machines.items }
        requires numbers { AreNumbered (suc (length self.trace.now.machines.items)) 0
            self.members.items }
        ensures since { IfOk result (λ t. t.since ≡ t.now) }
        ensures now { IfOk result (λ t.
            (t.now.machines.items ≡ machines_of self.members.items) ×
            (t.now.coordinator ≡ self.lead.coordinator)) }
        ensures same { IfOk result (λ t. IsSameAttempt (record self.trace { since = t.now }) t) }
        ensures goes_on { IfOk result (λ t. TraceGoesOn M.represents self.trace t) }
    {
        let (trace, opened) = self.off_board(alloc)?;
        drop(opened);
        Ok(trace)
    }

    /// Takes the cluster off the board again, as `joined` does, and closes the board with a
    /// receipt: its entries are those of the receipt that the board was opened with, if any, and
    /// behind them the updates that were made on the board, by ticket. `NoMemory` drops all.
    pub fn closed(self, alloc: Global) -> Result<(Trace<M>, Receipt), NoMemory>
        requires board { IsBoardOf M.represents self.trace self.failed.items
            self.board.table.table.shared.key.about.machines
            self.board.table.table.shared.key.about.failures.value.items
            self.board.table.table.shared.key.about.done.value.items
            self.board.table.table.shared.key.about.opening.value
            self.board.table.many self.board.table.top }
        requires table { self.place.seat.table_id ≡ self.board.table.table.shared.table_id }
        requires place { Rests self.place.seat.me (Lead self.lead) (resting self.members.items) }
        requires lead { self.lead.number ≡ length self.trace.now.machines.items }
        requires many { length self.members.items ≡ length self.trace.now.machines.items }
        requires numbers { AreNumbered (suc (length self.trace.now.machines.items)) 0
            self.members.items }
        requires lengths { AreLengthsOf M.represents self.trace self.opened.lengths.items }
        ensures since { IfOk result (λ t. t.0.since ≡ t.0.now) }
        ensures now { IfOk result (λ t.
            (t.0.now.machines.items ≡ machines_of self.members.items) ×
            (t.0.now.coordinator ≡ self.lead.coordinator)) }
        ensures same { IfOk result (λ t.
            IsSameAttempt (record self.trace { since = t.0.now }) t.0) }
        ensures goes_on { IfOk result (λ t. TraceGoesOn M.represents self.trace t.0) }
        ensures receipt { IfOk result (λ t. IsReceipt M.represents self.trace t.0
            (entries_in self.opened.so_far) t.1) }
    {
        let (trace, opened) = self.off_board(alloc)?;
        let receipt = opened.closed(alloc, &trace)?;
        Ok((trace, receipt))
    }

    /// Takes the cluster off the board again. What the receipt is made from comes with the trace.
    fn off_board(self, alloc: Global) -> Result<(Trace<M>, Opened), NoMemory>
        requires board { IsBoardOf M.represents self.trace self.failed.items
            self.board.table.table.shared.key.about.machines
            self.board.table.table.shared.key.about.failures.value.items
            self.board.table.table.shared.key.about.done.value.items
            self.board.table.table.shared.key.about.opening.value
            self.board.table.many self.board.table.top }
        requires table { self.place.seat.table_id ≡ self.board.table.table.shared.table_id }
        requires place { Rests self.place.seat.me (Lead self.lead) (resting self.members.items) }
        requires lead { self.lead.number ≡ length self.trace.now.machines.items }
        requires many { length self.members.items ≡ length self.trace.now.machines.items }
        requires numbers { AreNumbered (suc (length self.trace.now.machines.items)) 0
            self.members.items }
        ensures since { IfOk result (λ t. t.0.since ≡ t.0.now) }
        ensures now { IfOk result (λ t.
            (t.0.now.machines.items ≡ machines_of self.members.items) ×
            (t.0.now.coordinator ≡ self.lead.coordinator)) }
        ensures same { IfOk result (λ t.
            IsSameAttempt (record self.trace { since = t.0.now }) t.0) }
        ensures goes_on { IfOk result (λ t. TraceGoesOn M.represents self.trace t.0) }
        ensures opened { IfOk result (λ t. t.1 ≡ self.opened) }
    {
        let Attempt {
            trace,
            opened,
            failed,
            board,
            place,
            lead,
            members,
        } = self;
        let top = board.table.top();
        let (list, next) = board.close(place);
        let links = Links::of_list(alloc, list, lead.number + 1)?;
        let machines = without_numbers(alloc, members)?;
        let parts = Parts {
            machines,
            failed,
            links,
            coordinator: lead.coordinator,
            next,
            left: top - next,
            stopped: false,
        };
        Ok((trace.joined(parts), opened))
    }
}

/// The machines with their numbers, in order.
fn with_numbers<M: SavingMachine>(
    alloc: Global,
    machines: Vec<M>,
    peers: usize,
) -> Result<Vec<Member<M>>, NoMemory>
    ensures { IfOk result (λ members. members.items ≡ numbered_members peers 0 machines.items) }
{
    let mut members = Vec::with_capacity(alloc, machines.len())?;
    for machine in machines {
        let number = members.len();
        members.push_reserved(Member {
            number,
            peers,
            machine,
        });
    }
    Ok(members)
}

/// The machines alone.
fn without_numbers<M: SavingMachine>(
    alloc: Global,
    members: Vec<Member<M>>,
) -> Result<Vec<M>, NoMemory>
    ensures { IfOk result (λ machines. machines.items ≡ map (λ y. y.machine) members.items) }
{
    let mut machines = Vec::with_capacity(alloc, members.len())?;
    for member in members {
        let Member {
            number: _,
            peers: _,
            machine,
        } = member;
        machines.push_reserved(machine);
    }
    Ok(machines)
}
