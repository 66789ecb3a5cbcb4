//! A stretch of a run, with the machines on threads.
ghost use Rattle.std.specs.Prelude.{◌≡◌, ◌+◌, ◌*◌, ◌^◌, ◌<◌, ◌≤◌, ℕ, suc, List, [], length, vec_capacity, IfOk, OnOk};
ghost use Rattle.cluster_step.specs.trace.Traces.{IsSameAttempt, TraceGoesOn};
ghost use Rattle.link_tables.specs.Seats.{Rests};
ghost use Rattle.node_threads.specs.Nodes.{AllDown, AllFrom, FitsBoard, IsAtBoard, LeadsBoard};
ghost use Rattle.wire_board.specs.Attempts.{AreNumbered, IsBoardOf, resting};
ghost use Rattle.wire_board.specs.declared.standings.Seated.TheVariants.{Lead};

use crate::leading::lead;
use crate::serving::Hall;
use crate::starting::{Child, join_each, join_in_vain, start_each};
use cluster_step::trace::Trace;
use gl_base::{FailureAt, NoMemory};
use std::alloc::Global;
use std::sync::Wait;
use std::sync::atomic::AtomicUsize;
use std::thread;
use std::thread::{Scope, Threads};
use wire_board::{Attempt, Board, CoordSeat, EagerMachine, NodeSeat, TOO_MANY};

/// The seats at a board: the coordinator's, and those of the machines.
#[derive(Drop)]
struct Seats<M: EagerMachine> {
    first: CoordSeat<M>,
    nodes: Vec<NodeSeat<M>>,
}

/// Runs the cluster of a trace on threads, one for each machine but the first, whose turns are
/// those of this thread, as the coordinator's are: until a machine has reached the count of a
/// failure, no ticket is left, a record is due, the end, or nothing moves for long. A machine for
/// which no thread can be made has its turns here. Each thread is joined. Where a machine has
/// failed, the run has ended or there are too many machines, nothing happens. `NoMemory` drops the
/// trace.
pub fn run_nodes<R: Threads + Wait + Sync, M: EagerMachine + Send + Sync>(
    rt: &R,
    alloc: Global,
    trace: Trace<M>,
) -> Result<Trace<M>, NoMemory>
    ensures same { IfOk result (λ t. IsSameAttempt (record trace { since = t.now }) t) }
    ensures goes_on { IfOk result (λ t. TraceGoesOn M.represents trace t) }
{
    if trace.is_stopped() || !trace.are_all_awake() || trace.machines() >= TOO_MANY {
        let mut trace = trace;
        trace.remember();
        return Ok(trace);
    }
    let attempt = Attempt::open(alloc, trace, None)?;
    let attempt = run_attempt(rt, alloc, attempt)?;
    attempt.joined(alloc)
}

/// Runs the cluster on its board. All parts are in one place again. `NoMemory` drops all.
fn run_attempt<R: Threads + Wait + Sync, M: EagerMachine + Send + Sync>(
    rt: &R,
    alloc: Global,
    attempt: Attempt<M>,
) -> Result<Attempt<M>, NoMemory>
    requires board { IsBoardOf M.represents attempt.trace attempt.failed.items
        attempt.board.table.table.shared.key.about.machines
        attempt.board.table.table.shared.key.about.failures.value.items
        attempt.board.table.table.shared.key.about.done.value.items
        attempt.board.table.table.shared.key.about.opening.value
        attempt.board.table.many attempt.board.table.top }
    requires table { attempt.place.seat.table_id ≡ attempt.board.table.table.shared.table_id }
    requires place { Rests attempt.place.seat.me (Lead attempt.lead)
        (resting attempt.members.items) }
    requires lead { attempt.lead.number ≡ length attempt.trace.now.machines.items }
    requires many { length attempt.members.items ≡ length attempt.trace.now.machines.items }
    requires numbers { AreNumbered (suc (length attempt.trace.now.machines.items)) 0
        attempt.members.items }
    ensures trace { IfOk result (λ a. a.trace ≡ attempt.trace) }
    ensures board { IfOk result (λ a. IsBoardOf M.represents attempt.trace a.failed.items
        a.board.table.table.shared.key.about.machines
        a.board.table.table.shared.key.about.failures.value.items
        a.board.table.table.shared.key.about.done.value.items
        a.board.table.table.shared.key.about.opening.value
        a.board.table.many a.board.table.top) }
    ensures table { IfOk result (λ a.
        a.place.seat.table_id ≡ a.board.table.table.shared.table_id) }
    ensures place { IfOk result (λ a.
        Rests a.place.seat.me (Lead a.lead) (resting a.members.items)) }
    ensures lead { IfOk result (λ a. a.lead.number ≡ length attempt.trace.now.machines.items) }
    ensures many { IfOk result (λ a.
        length a.members.items ≡ length attempt.trace.now.machines.items) }
    ensures numbers { IfOk result (λ a.
        AreNumbered (suc (length attempt.trace.now.machines.items)) 0 a.members.items) }
{
    let Attempt {
        trace,
        opened,
        failed,
        board,
        place,
        lead,
        members,
    } = attempt;
    let mut first = CoordSeat { lead, place };
    let done = trace.done().as_slice();
    let peers = members.len() + 1;
    let nodes = board.seat_each(alloc, done, &mut first.place, members)?;
    let failures = trace.failures().as_slice();
    let Seats { first, nodes } = play(rt, alloc, &board, failures, Seats { first, nodes })?;
    let CoordSeat { lead, place } = first;
    let mut place = place;
    board.rest_lead(&lead, &mut place);
    let members = board.gather_each(alloc, &mut place, nodes, peers)?;
    Ok(Attempt {
        trace,
        opened,
        failed,
        board,
        place,
        lead,
        members,
    })
}

/// Plays the board, on as many threads as it has machines, until the halt is up.
fn play<R: Threads + Wait + Sync, M: EagerMachine + Send + Sync>(
    rt: &R,
    alloc: Global,
    board: &Board<M>,
    failures: &[FailureAt],
    seats: Seats<M>,
) -> Result<Seats<M>, NoMemory>
    requires fits { FitsBoard board.now failures.now (suc (length seats.nodes.items)) }
    requires first { LeadsBoard board.now (length seats.nodes.items) seats.first }
    requires nodes { AllFrom (IsAtBoard M.represents board.now (suc (length seats.nodes.items))) 0
        seats.nodes.items }
    ensures many { IfOk result (λ s. length s.nodes.items ≡ length seats.nodes.items) }
    ensures first { IfOk result (λ s. LeadsBoard board.now (length seats.nodes.items) s.first) }
    ensures nodes { IfOk result (λ s. AllFrom
        (IsAtBoard M.represents board.now (suc (length seats.nodes.items))) 0 s.nodes.items) }
{
    let hall = Hall {
        board,
        failures,
        refused: AtomicUsize::new(0),
    };
    if seats.nodes.len() < 2 {
        return play_here(rt, alloc, &hall, seats);
    }
    let hall = &hall;
    thread::scope(
        thread::scope_env(),
        rt,
        move |scope| -> Result<Seats<M>, NoMemory>
            requires { FitsBoard hall.now.board.now hall.now.failures.now
                (suc (length seats.nodes.items))
                × LeadsBoard hall.now.board.now (length seats.nodes.items) seats.first
                × AllFrom (IsAtBoard M.represents hall.now.board.now
                (suc (length seats.nodes.items))) 0 seats.nodes.items }
            ensures { IfOk result (λ s. (length s.nodes.items ≡ length seats.nodes.items)
                × LeadsBoard hall.entry.now.board.now (length seats.nodes.items) s.first
                × AllFrom (IsAtBoard M.represents hall.entry.now.board.now
                (suc (length seats.nodes.items))) 0 s.nodes.items) }
        { play_there(rt, alloc, scope, hall, seats) },
    )
}

/// Plays the board on this thread alone.
fn play_here<R: Wait, M: EagerMachine>(
    rt: &R,
    alloc: Global,
    hall: &Hall<'_, M>,
    seats: Seats<M>,
) -> Result<Seats<M>, NoMemory>
    requires fits { FitsBoard hall.now.board.now hall.now.failures.now
        (suc (length seats.nodes.items)) }
    requires first { LeadsBoard hall.now.board.now (length seats.nodes.items) seats.first }
    requires nodes { AllFrom (IsAtBoard M.represents hall.now.board.now
        (suc (length seats.nodes.items))) 0 seats.nodes.items }
    ensures many { IfOk result (λ s. length s.nodes.items ≡ length seats.nodes.items) }
    ensures first { IfOk result (λ s.
        LeadsBoard hall.now.board.now (length seats.nodes.items) s.first) }
    ensures nodes { IfOk result (λ s. AllFrom (IsAtBoard M.represents hall.now.board.now
        (suc (length seats.nodes.items))) 0 s.nodes.items) }
{
    let mut seats = seats;
    lead(
        rt,
        alloc,
        hall.board,
        hall.failures,
        &mut seats.first,
        &mut seats.nodes,
    )?;
    Ok(seats)
}

/// Plays the board on threads of this scope, each of which is joined.
fn play_there<'s, E, R: Threads + Wait + Sync, M: EagerMachine + Send + Sync + 's>(
    rt: &'s R,
    alloc: Global,
    scope: &'s Scope<'s, E>,
    hall: &'s Hall<'s, M>,
    seats: Seats<M>,
) -> Result<Seats<M>, NoMemory>
    requires fits { FitsBoard hall.now.board.now hall.now.failures.now
        (suc (length seats.nodes.items)) }
    requires first { LeadsBoard hall.now.board.now (length seats.nodes.items) seats.first }
    requires nodes { AllFrom (IsAtBoard M.represents hall.now.board.now
        (suc (length seats.nodes.items))) 0 seats.nodes.items }
    ensures many { IfOk result (λ s. length s.nodes.items ≡ length seats.nodes.items) }
    ensures first { IfOk result (λ s.
        LeadsBoard hall.now.board.now (length seats.nodes.items) s.first) }
    ensures nodes { IfOk result (λ s. AllFrom (IsAtBoard M.represents hall.now.board.now
        (suc (length seats.nodes.items))) 0 s.nodes.items) }
{
    let mut seats = seats;
    let peers = seats.nodes.len() + 1;
    let mut children = Vec::with_capacity(alloc, seats.nodes.len())?;
    match start_and_lead(rt, alloc, scope, hall, &mut seats, &mut children) {
        Ok(()) => {
            join_each(rt, hall, children, &mut seats.nodes, peers)?;
            Ok(seats)
        }
        Err(NoMemory) => {
            join_in_vain(rt, children);
            Err(NoMemory)
        }
    }
}

/// Starts the threads and leads them.
fn start_and_lead<'s, E, R: Threads + Wait + Sync, M: EagerMachine + Send + Sync + 's>(
    rt: &'s R,
    alloc: Global,
    scope: &'s Scope<'s, E>,
    hall: &'s Hall<'s, M>,
    seats: &mut Seats<M>,
    children: &mut Vec<Child<M>>,
) -> Result<(), NoMemory>
    requires fits { FitsBoard hall.now.board.now hall.now.failures.now
        (suc (length seats.old.nodes.items)) }
    requires first { LeadsBoard hall.now.board.now (length seats.old.nodes.items) seats.old.first }
    requires nodes { AllFrom (IsAtBoard M.represents hall.now.board.now
        (suc (length seats.old.nodes.items))) 0 seats.old.nodes.items }
    requires none { children.old.items ≡ [] }
    requires room { length seats.old.nodes.items ≤ vec_capacity children.old }
    ensures children { AllDown (λ a child.
        IsAtBoard M.represents hall.now.board.now (suc (length seats.old.nodes.items)) a
        child.promise.seat.value) (length seats.old.nodes.items) children.new.items }
    ensures many { OnOk result (length seats.new.nodes.items + length children.new.items ≡
        length seats.old.nodes.items) }
    ensures first { OnOk result
        (LeadsBoard hall.now.board.now (length seats.old.nodes.items) seats.new.first) }
    ensures nodes { OnOk result (AllFrom (IsAtBoard M.represents hall.now.board.now
        (suc (length seats.old.nodes.items))) 0 seats.new.nodes.items) }
{
    start_each(rt, alloc, scope, hall, &mut seats.nodes, children)?;
    lead(
        rt,
        alloc,
        hall.board,
        hall.failures,
        &mut seats.first,
        &mut seats.nodes,
    )
}
