//! What the caller's thread does: the coordinator's turns, and those of the machines that have no
//! thread.
ghost use Rattle.std.specs.Prelude.{◌≡◌, ◌*◌, ◌^◌, ◌<◌, suc, length, OnOk};
ghost use Rattle.node_threads.specs.Nodes.{AllFrom, FitsBoard, IsAtBoard, LeadsBoard};

use crate::serving::{LOOKS, play_turn};
use cluster_step::clusters::Coordinator;
use gl_base::{FailureAt, MAX_SNAPSHOTS, NoMemory};
use std::alloc::Global;
use std::sync::Wait;
use std::thread;
use wire_board::{Board, CoordSeat, Directed, EagerMachine, NodeSeat};

/// For how many rounds in which nothing moves the coordinator waits before it raises the halt.
const PATIENCE: u32 = 1_000_000;

/// The machines of the seats and the coordinator have their turns, again and again until the halt
/// is up. It is raised where a record is due, the end, or nothing moves for many rounds.
pub(crate) fn lead<R: Wait, M: EagerMachine>(
    rt: &R,
    alloc: Global,
    board: &Board<M>,
    failures: &[FailureAt],
    first: &mut CoordSeat<M>,
    seats: &mut Vec<NodeSeat<M>>,
) -> Result<(), NoMemory>
    requires fits { FitsBoard board.now failures.now (suc first.old.lead.number) }
    requires first { LeadsBoard board.now first.old.lead.number first.old }
    requires seats { AllFrom (IsAtBoard M.represents board.now (suc first.old.lead.number)) 0
        seats.old.items }
    ensures first { OnOk result (LeadsBoard board.now first.old.lead.number first.new) }
    ensures many { OnOk result (length seats.new.items ≡ length seats.old.items) }
    ensures seats { OnOk result (AllFrom (IsAtBoard M.represents board.now
        (suc first.old.lead.number)) 0 seats.new.items) }
{
    let alone = seats.len() == first.lead.number;
    let mut idle = 0u32;
    for _ in rt.forever() {
        if board.is_halted(&mut first.place) {
            return Ok(());
        }
        let peers = first.lead.number + 1;
        let moved = play_each(alloc, board, failures, seats, peers)?;
        idle = lead_on(alloc, board, first, moved, idle, alone)?;
    }
    unreachable!()
}

/// Each machine of the seats has a turn. For want of memory the halt is raised. Says whether
/// anything moved.
fn play_each<M: EagerMachine>(
    alloc: Global,
    board: &Board<M>,
    failures: &[FailureAt],
    seats: &mut Vec<NodeSeat<M>>,
    _peers: usize,
) -> Result<bool, NoMemory>
    requires fits { FitsBoard board.now failures.now _peers }
    requires seats { AllFrom (IsAtBoard M.represents board.now _peers) 0 seats.old.items }
    ensures many { OnOk result (length seats.new.items ≡ length seats.old.items) }
    ensures seats { OnOk result (AllFrom (IsAtBoard M.represents board.now _peers) 0
        seats.new.items) }
{
    let mut moved = false;
    for a in 0..seats.len() {
        if play_turn(alloc, board, failures, &mut seats[a])? {
            moved = true;
        }
    }
    Ok(moved)
}

/// The coordinator has a turn. It puts no wave out before nothing has moved for some rounds, unless
/// it is alone: no machine is on another thread. The halt is raised for want of memory, where a
/// record is due, the end, where a full store needs one more, and where nothing has moved for too
/// long. Returns for how many rounds nothing has moved.
fn lead_on<M: EagerMachine>(
    alloc: Global,
    board: &Board<M>,
    first: &mut CoordSeat<M>,
    moved: bool,
    idle: u32,
    alone: bool,
) -> Result<u32, NoMemory>
    requires links { (suc first.old.lead.number * suc first.old.lead.number ≡
        board.now.table.many) × (suc first.old.lead.number < 2 ^ 16) }
    requires first { LeadsBoard board.now first.old.lead.number first.old }
    ensures { OnOk result (LeadsBoard board.now first.old.lead.number first.new) }
{
    if needs_more(&first.lead.coordinator) {
        board.raise(&mut first.place);
        return Ok(0);
    }
    let quiet = !moved && (alone || idle >= LOOKS);
    match board.direct(alloc, &mut first.lead, &mut first.place, !quiet) {
        Ok(Directed::Moved) if moved || quiet => Ok(0),
        Ok(Directed::Moved) => Ok(idle.saturating_add(1)),
        Ok(Directed::Nothing) if alone || idle >= PATIENCE => {
            board.raise(&mut first.place);
            Ok(0)
        }
        Ok(Directed::Nothing) => {
            thread::yield_now();
            Ok(idle.saturating_add(1))
        }
        Ok(Directed::Ending) => {
            board.raise(&mut first.place);
            Ok(0)
        }
        Err(NoMemory) => {
            board.raise(&mut first.place);
            Err(NoMemory)
        }
    }
}

/// Whether a snapshot is under way while as many are stored as may be.
fn needs_more(coordinator: &Coordinator) -> bool {
    coordinator.stored() >= MAX_SNAPSHOTS && coordinator.is_under_way()
}
