//! What the thread of a machine does.
ghost use Rattle.std.specs.Prelude.{◌≡◌, IfOk, OnOk};
ghost use Rattle.node_threads.specs.Nodes.{FitsBoard, HasServed, IsAtBoard};

use gl_base::{FailureAt, NoMemory};
use std::alloc::Global;
use std::sync::Wait;
use std::sync::atomic::{AtomicUsize, Ordering};
use std::thread;
use wire_board::{Board, EagerMachine, NodeSeat, Worked};

/// For how many turns in which nothing moves a thread looks again at once.
pub(crate) const LOOKS: u32 = 64;

/// What all threads of a board share.
#[derive(Drop)]
pub(crate) struct Hall<'a, M: EagerMachine> {
    pub(crate) board: &'a Board<M>,
    pub(crate) failures: &'a [FailureAt],
    /// The machines with lower numbers have no thread.
    pub(crate) refused: AtomicUsize,
}

/// The machine has its turn, again and again until the halt is up. Where nothing has moved for some
/// turns the thread yields its processor behind each. A machine that is to have no thread has no
/// turn. `NoMemory` drops the seat.
pub(crate) fn serve<R: Wait, M: EagerMachine>(
    rt: &R,
    alloc: Global,
    hall: &Hall<'_, M>,
    seat: NodeSeat<M>,
) -> Result<NodeSeat<M>, NoMemory>
    requires fits { FitsBoard hall.now.board.now hall.now.failures.now seat.member.peers }
    requires seat { IsAtBoard M.represents hall.now.board.now seat.member.peers
        seat.member.number seat }
    ensures { IfOk result (λ s. HasServed M.represents seat s) }
{
    let mut seat = seat;
    if seat.member.number < hall.refused.load(Ordering::SeqCst) {
        return Ok(seat);
    }
    let mut looks = 0u32;
    for _ in rt.forever() {
        if hall.board.is_halted(&mut seat.place) {
            return Ok(seat);
        }
        let moved = play_turn(alloc, hall.board, hall.failures, &mut seat)?;
        looks = looked(looks, moved);
    }
    unreachable!()
}

/// The machine has a turn. The halt is raised where it has reached the count of a failure, where it
/// has found no ticket, and for want of memory. Says whether anything moved.
pub(crate) fn play_turn<M: EagerMachine>(
    alloc: Global,
    board: &Board<M>,
    failures: &[FailureAt],
    seat: &mut NodeSeat<M>,
) -> Result<bool, NoMemory>
    requires fits { FitsBoard board.now failures.now seat.old.member.peers }
    requires seat { IsAtBoard M.represents board.now seat.old.member.peers
        seat.old.member.number seat.old }
    ensures { OnOk result (HasServed M.represents seat.old seat.new) }
{
    let before = seat.before;
    let Ok(worked) = board.turn(alloc, &mut seat.member, &mut seat.place, failures, before) else {
        board.raise(&mut seat.place);
        return Err(NoMemory);
    };
    match worked {
        Worked::Some => Ok(true),
        Worked::Nothing => Ok(false),
        Worked::Reached | Worked::Spent => {
            board.raise(&mut seat.place);
            Ok(true)
        }
    }
}

/// Counts a turn more in which nothing moved. Behind the last look the processor is yielded.
fn looked(looks: u32, moved: bool) -> u32 {
    if moved {
        0
    } else if looks < LOOKS {
        looks + 1
    } else {
        thread::yield_now();
        looks
    }
}
