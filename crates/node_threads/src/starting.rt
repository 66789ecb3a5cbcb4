//! Threads of machines: each is started, and joined again.
ghost use Rattle.std.specs.Prelude.{◌≡◌, ◌≤◌, ◌+◌, ◌++◌, ◌∷◌, [], length, suc, vec_capacity, Ok, IfErr, IfOk, OnOk};
ghost use Rattle.node_threads.specs.Nodes.{AllDown, AllFrom, FitsBoard, HasServed, IsAtBoard};

use crate::serving::{Hall, serve};
use gl_base::NoMemory;
use std::alloc::Global;
use std::snapshot::Snapshot;
use std::sync::Wait;
use std::sync::atomic::Ordering;
use std::thread::{Promise, PromisedHandle, Scope, Threads};
use wire_board::{EagerMachine, NodeSeat};

/// What comes back is a seat of the same machine.
pub(crate) struct Served<M: EagerMachine> {
    seat: Snapshot<NodeSeat<M>>,
}

impl<M: EagerMachine> Drop for Served<M> {
    fn drop(self) {
        let Served { seat: _ } = self;
    }
}

impl<M: EagerMachine> Promise<Result<NodeSeat<M>, NoMemory>> for Served<M> {
    ghost kept_by = { λ p r. IfOk r (λ s. HasServed M.represents p.seat.value s) };
}

/// The thread of a machine.
pub(crate) type Child<M> = PromisedHandle<Result<NodeSeat<M>, NoMemory>, Served<M>>;

/// Starts the thread of a machine. Where none can be made the seat comes back.
fn start<'s, E, R: Threads + Wait + Sync, M: EagerMachine + Send + Sync + 's>(
    rt: &'s R,
    alloc: Global,
    scope: &'s Scope<'s, E>,
    hall: &'s Hall<'s, M>,
    seat: NodeSeat<M>,
) -> Result<Child<M>, Result<NodeSeat<M>, NoMemory>>
    requires fits { FitsBoard hall.now.board.now hall.now.failures.now seat.member.peers }
    requires seat { IsAtBoard M.represents hall.now.board.now seat.member.peers
        seat.member.number seat }
    ensures child { IfOk result (λ h. h.promise.seat.value ≡ seat) }
    ensures back { IfErr result (λ r. IfOk r (λ s. HasServed M.represents seat s)) }
{
    let number = seat.member.number;
    let promise = Served {
        seat: Snapshot::of(&seat),
    };
    let run = move || -> Result<NodeSeat<M>, NoMemory>
        requires { FitsBoard hall.now.board.now hall.now.failures.now seat.member.peers
            × IsAtBoard M.represents hall.now.board.now seat.member.peers seat.member.number seat }
        ensures { IfOk result (λ s. HasServed M.represents seat s) }
    { serve(rt, alloc, hall, seat) };
    match scope.spawn_with(promise, run) {
        Ok(child) => Ok(child),
        Err(refused) => {
            hall.refused
                .store(number.saturating_add(1), Ordering::SeqCst);
            Err((refused.value)())
        }
    }
}

/// Starts a thread for each machine but the first, from the last on, until one can't be made. The
/// machines that are left have none.
pub(crate) fn start_each<'s, E, R: Threads + Wait + Sync, M: EagerMachine + Send + Sync + 's>(
    rt: &'s R,
    alloc: Global,
    scope: &'s Scope<'s, E>,
    hall: &'s Hall<'s, M>,
    seats: &mut Vec<NodeSeat<M>>,
    children: &mut Vec<Child<M>>,
) -> Result<(), NoMemory>
    requires fits { FitsBoard hall.now.board.now hall.now.failures.now
        (suc (length seats.old.items)) }
    requires seats { AllFrom (IsAtBoard M.represents hall.now.board.now
        (suc (length seats.old.items))) 0 seats.old.items }
    requires none { children.old.items ≡ [] }
    requires room { length seats.old.items ≤ vec_capacity children.old }
    ensures children { AllDown (λ a child.
        IsAtBoard M.represents hall.now.board.now (suc (length seats.old.items)) a
        child.promise.seat.value) (length seats.old.items) children.new.items }
    ensures many { OnOk result
        (length seats.new.items + length children.new.items ≡ length seats.old.items) }
    ensures seats { OnOk result (AllFrom (IsAtBoard M.represents hall.now.board.now
        (suc (length seats.old.items))) 0 seats.new.items) }
{
    for _ in 1..seats.len() {
        let Some(seat) = seats.pop() else {
            break;
        };
        match start(rt, alloc, scope, hall, seat) {
            Ok(child) => children.push_reserved(child),
            Err(seat) => {
                seats.push_reserved(seat?);
                break;
            }
        }
    }
    Ok(())
}

/// Joins each thread, and puts the seats that come back behind the others. For want of memory in
/// any thread nothing is said of the seats.
pub(crate) fn join_each<R: Threads, M: EagerMachine>(
    rt: &R,
    _hall: &Hall<'_, M>,
    children: Vec<Child<M>>,
    seats: &mut Vec<NodeSeat<M>>,
    _peers: usize,
) -> Result<(), NoMemory>
    requires children { AllDown (λ a child. IsAtBoard M.represents _hall.now.board.now _peers a
        child.promise.seat.value) (length seats.old.items + length children.items)
        children.items }
    requires seats { AllFrom (IsAtBoard M.represents _hall.now.board.now _peers) 0 seats.old.items }
    ensures many { OnOk result (length seats.new.items ≡
        length seats.old.items + length children.items) }
    ensures seats { OnOk result (AllFrom (IsAtBoard M.represents _hall.now.board.now _peers) 0
        seats.new.items) }
{
    let mut children = children;
    let mut all = Ok(());
    for _ in 0..children.len() {
        let Some(child) = children.pop() else {
            break;
        };
        all = both(all, join_one(rt, child, seats));
    }
    all
}

/// Joins each thread, and drops the seats that come back.
pub(crate) fn join_in_vain<R: Threads, M: EagerMachine>(rt: &R, children: Vec<Child<M>>) {
    for child in children {
        let _seat = child.join(rt);
    }
}

/// Joins the thread of a machine, and puts its seat behind the others.
fn join_one<R: Threads, M: EagerMachine>(
    rt: &R,
    child: Child<M>,
    seats: &mut Vec<NodeSeat<M>>,
) -> Result<(), NoMemory>
    ensures { OnOk result ((seat : NodeSeat M) × HasServed M.represents child.promise.seat.value seat
        × (seats.new.items ≡ seats.old.items ++ seat ∷ [])) }
{
    let seat = child.join(rt)?;
    seats.push(seat)?;
    Ok(())
}

/// Says whether there was memory for both.
fn both(one: Result<(), NoMemory>, other: Result<(), NoMemory>) -> Result<(), NoMemory>
    ensures { OnOk result ((one ≡ Ok tt) × (other ≡ Ok tt)) }
{
    one?;
    other
}
