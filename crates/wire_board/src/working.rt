//! What a machine does by itself.
ghost use Rattle.std.specs.Prelude.{◌≡◌, true, false, IfOk, IsErr, IsOk};
ghost use Rattle.wire_board.specs.Acts.{MovesAlone};
ghost use Rattle.wire_board.specs.Standings.{ComesOn};

use cluster_step::clusters::SavingMachine;
use coordinator::machine_api::EagerMachine;
use gl_base::{NoMemory, Refused};

/// Whether it was done.
fn was_done(came: Result<(), Refused>) -> Result<bool, NoMemory>
    ensures done { IfOk result (λ some. some ≡ true → IsOk came) }
    ensures not_now { IfOk result (λ some. some ≡ false → IsErr came) }
{
    match came {
        Ok(()) => Ok(true),
        Err(Refused::NotNow) => Ok(false),
        Err(Refused::NoMemory) => Err(NoMemory),
    }
}

/// Grants a lock, and behind it those that its scope asks for here and nobody else claims, or else
/// makes a snapshot update, or else puts the section out. Says whether there was one.
fn go_on<M: EagerMachine>(machine: &mut M) -> Result<bool, NoMemory>
    ensures comes { ComesOn M.represents machine.old machine.new }
    ensures moved { IfOk result (MovesAlone M.represents machine.old machine.new) }
{
    if let Some(x) = machine.next_grant() {
        return was_done(machine.grant_in_turn(x));
    }
    if let Some(scope) = machine.next_mark() {
        return was_done(machine.mark(scope));
    }
    was_done(machine.section())
}

/// Does all that may be done without a ticket and without a message. Says whether there was
/// something.
pub(crate) fn settle_all<M: EagerMachine>(machine: &mut M) -> Result<bool, NoMemory>
    ensures comes { ComesOn M.represents machine.old machine.new }
    ensures moved { IfOk result (MovesAlone M.represents machine.old machine.new) }
{
    let mut some = false;
    for _ in 0..u64::MAX {
        if !go_on(machine)? {
            return Ok(some);
        }
        some = true;
    }
    Ok(some)
}

/// Admits a scope. Says whether one was.
pub(crate) fn admit_one<M: SavingMachine>(machine: &mut M) -> Result<bool, NoMemory>
    ensures comes { ComesOn M.represents machine.old machine.new }
    ensures moved { IfOk result (MovesAlone M.represents machine.old machine.new) }
{
    was_done(machine.admit())
}
