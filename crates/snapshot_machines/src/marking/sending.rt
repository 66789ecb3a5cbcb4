//! Sections.
ghost use Rattle.std.specs.Prelude.{◌≡◌, ◌≤◌, true, false, IfOk, OnOk, OnErr, IsErrOf};
ghost use Rattle.coordinator.specs.snap_update.Snaps.{HasKeptRoom, IsSameButRoom, own_section, section_view, with_section};
ghost use Rattle.snapshot_machines.specs.marking.Seeding.{AreMarkedBelow, HasUnmarked, IsPastLast};
ghost use Rattle.snapshot_machines.specs.marking.Sending.{AreMarksUpTo, MayNotSendSection, MaySendSection};

use crate::marking::seeding::{first_unmarked, own_at};
use coordinator::snap_update::SnapPart;
use gl_base::{NoMemory, Refused};
use machine_core::machine_parts::Core;
use partition::machine_numbers::Numbers;
use std::alloc::Global;
use wire::wire_msgs::Section;

/// The section of the snapshot that is known, where each own vertex has its mark and the section
/// wasn't sent yet: the saved numbers, and the updates made before their vertex was marked, which
/// no later section has. `NotNow` exactly where it may not be sent. It goes over what it tells, and
/// once over the vertices for each snapshot.
pub fn section(
    alloc: Global,
    core: &Core,
    snaps: &mut SnapPart,
    seen: &mut usize,
) -> Result<Section, Refused>
    requires base { core.now.terms.base ≤ snaps.old.sent }
    requires marks { AreMarksUpTo core.now.numbers snaps.old.known }
    requires seen { AreMarkedBelow core.now.numbers snaps.old.known seen.old }
    ensures may { OnOk result (MaySendSection core.now snaps.old) }
    ensures told { IfOk result (λ s. section_view s ≡ own_section snaps.old) }
    ensures sent { OnOk result (IsSameButRoom (with_section snaps.old) snaps.new) }
    ensures not_now { IsErrOf result Refused.NotNow → MayNotSendSection core.now snaps.old }
    ensures no_memory { IsErrOf result Refused.NoMemory → MaySendSection core.now snaps.old }
    ensures unchanged { OnErr result (snaps.new ≡ snaps.old) }
    ensures room { HasKeptRoom snaps.old.room snaps.new.room }
    ensures seen { AreMarkedBelow core.now.numbers snaps.old.known seen.new }
{
    if !is_section_due(core, snaps, seen) {
        return Err(Refused::NotNow);
    }
    match snaps.section(alloc) {
        Ok(section) => Ok(section),
        Err(NoMemory) => Err(Refused::NoMemory),
    }
}

/// Whether the section may be sent now. It takes no memory.
pub fn is_section_due(core: &Core, snaps: &SnapPart, seen: &mut usize) -> bool
    requires base { core.now.terms.base ≤ snaps.now.sent }
    requires marks { AreMarksUpTo core.now.numbers snaps.now.known }
    requires seen { AreMarkedBelow core.now.numbers snaps.now.known seen.old }
    ensures yes { result ≡ true → MaySendSection core.now snaps.now }
    ensures no { result ≡ false → MayNotSendSection core.now snaps.now }
    ensures seen { AreMarkedBelow core.now.numbers snaps.now.known seen.new }
{
    if !snaps.is_unsent() {
        return false;
    }
    are_all_marked(&core.numbers, snaps.known(), seen)
}

/// Whether each own vertex has the mark of this snapshot; those before `seen` have it.
fn are_all_marked(numbers: &Numbers, known: u32, seen: &mut usize) -> bool
    requires { AreMarkedBelow numbers.now known seen.old }
    ensures seen { AreMarkedBelow numbers.now known seen.new }
    ensures all { result ≡ true → IsPastLast numbers.now seen.new }
    ensures some { result ≡ false → HasUnmarked numbers.now known }
{
    *seen = first_unmarked(numbers, known, *seen);
    own_at(numbers, *seen).is_none()
}
