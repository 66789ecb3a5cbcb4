//! Whether a store that has as many snapshots as may be lacks one.
ghost use Rattle.std.specs.Prelude.{ℕ, ◌<◌, ◌≡◌, true, IsTrue};
ghost use Rattle.call_laws.specs.whole_calls.Telling.{AsksForNone, HasNoWordAt, AwaitsNoSnapshot, LacksNoSnapshot, NeedsMoreStore};
ghost use Rattle.cluster_laws.specs.cluster_model.Working.{half_window};
ghost use Rattle.cluster_step.specs.drive.Pauses.{InEachTrace, OfTheCall};

use crate::trace::{Due, SavingMachine, Trace};
use gl_base::{MAX_SNAPSHOTS, MachineNo};

/// Whether a snapshot is under way while as many are stored as may be.
pub(crate) fn is_full<M: SavingMachine>(trace: &Trace<M>) -> bool
    ensures { IsTrue result →
        OfTheCall M.represents trace.now (λ st o c call. NeedsMoreStore st c.coordinator call) }
{
    let coordinator = trace.coordinator();
    if coordinator.stored() < MAX_SNAPSHOTS {
        return false;
    }
    coordinator.is_under_way()
}

/// Whether the store takes one snapshot more, or nobody asks for one, where snapshots are taken.
pub(crate) fn lacks_no_snapshot<M: SavingMachine>(trace: &Trace<M>) -> bool
    ensures { IsTrue result →
        OfTheCall M.represents trace.now (λ st o c call. st.stored ≡ true →
        LacksNoSnapshot st c.coordinator call) }
{
    if trace.coordinator().stored() < MAX_SNAPSHOTS {
        return true;
    }
    asks_for_none(trace)
}

/// Whether nobody asks for a snapshot: none is under way or due, and no word is on its way between
/// the coordinator and a machine.
fn asks_for_none<M: SavingMachine>(trace: &Trace<M>) -> bool
    ensures { IsTrue result →
        InEachTrace M.represents trace.now (λ st o events c. st.stored ≡ true →
        0 < half_window st → AsksForNone st c) }
{
    if !is_settled(trace) {
        return false;
    }
    has_no_word(trace)
}

/// Whether no snapshot is under way, and none is due.
fn is_settled<M: SavingMachine>(trace: &Trace<M>) -> bool
    ensures { IsTrue result →
        InEachTrace M.represents trace.now (λ st o events c. st.stored ≡ true →
        AwaitsNoSnapshot st c.coordinator) }
{
    match trace.due() {
        Due::Snapshot(_) => false,
        _ => !trace.coordinator().is_under_way(),
    }
}

/// Whether no word is on its way between the coordinator and a machine.
fn has_no_word<M: SavingMachine>(trace: &Trace<M>) -> bool
    ensures { IsTrue result →
        InEachTrace M.represents trace.now (λ st o events c. (a : ℕ) →
        a < st.machines → HasNoWordAt c a) }
{
    for m in 0..trace.machines() {
        if trace.has_word(MachineNo(m as u16)) {
            return false;
        }
    }
    true
}
