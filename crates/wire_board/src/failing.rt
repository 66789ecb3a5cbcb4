//! Whether a machine has reached the count of a failure.
ghost use Rattle.std.specs.Prelude.{◌≡◌, ◌^◌, ◌<◌, ℕ, List, false, slice_index_or, IsTrue};
ghost use Rattle.wire_board.specs.Freeing.{HasReached, IsFree};

use crate::standings::Member;
use cluster_step::clusters::SavingMachine;
use cluster_step::trace::is_count_reached;
use gl_base::{FailureAt, MachineNo};

/// Whether the machine, which had completed so many updates as the attempt began, has reached the
/// count of no failure. Else it has reached one.
pub(crate) fn is_free<M: SavingMachine>(
    failures: &[FailureAt],
    member: &Member<M>,
    before: u64,
) -> bool
    requires { member.now.number < 2 ^ 16 }
    ensures free { IsTrue result → (done : List ℕ) →
        slice_index_or done member.now.number 0 ≡ before →
        IsFree M.represents failures.now done member.now.machine member.now.number }
    ensures reached { result ≡ false → (done : List ℕ) →
        slice_index_or done member.now.number 0 ≡ before →
        HasReached M.represents failures.now done member.now.machine member.now.number }
{
    let made = member.machine.log().len() as u64;
    !is_count_reached(failures, MachineNo(member.number as u16), before, made)
}
