//! What the first attempt of a call begins with.
ghost use Rattle.std.specs.Prelude.{◌≡◌, ◌+◌, ◌++◌, ◌∷◌, ◌≤◌, ◌<◌, ◌^◌, [], false, true, filter, if◌then◌else◌, IfErr, IfOk, OnOk};
ghost use Rattle.call_laws.specs.attempts.Entries.{is_restart};
ghost use Rattle.gl_base.specs.declared.entries.Entry.TheVariants.{Restart};
ghost use Rattle.engine_runs.specs.start.Starting.{restart_room};
ghost use Rattle.engine_runs.specs.start.Inner.Openings.{IsBaseOpened, IsOpeningOf, OpeningErrorCause};
ghost use Rattle.store.specs.declared.snap_journal.faults.JournalFault.TheVariants as fault;

use crate::start::tickets::next_ticket;
use gl_base::{Base, Entry, NoMemory};
use recovery::restarts::{Restarts, restarts_of};
use std::alloc::Global;
use store::snap_journal::JournalFault;

/// How many bytes a restart has in a store.
const RESTART_BYTES: u64 = 16;

/// The greatest length of a store of which a coordinator can know.
const MAX_LENGTH: u64 = 4294967295;

/// The base with which the first attempt of a call begins, its first ticket, and the restarts of
/// the order that the store has, and of the base's.
#[derive(Drop)]
pub(crate) struct Opening {
    pub(crate) base: Base,
    pub(crate) next: u64,
    pub(crate) restarts: Restarts,
}

/// What a call begins with that goes on from this base, of a store of so many snapshots. Where it
/// resumes, a restart stands behind the base's order, and the store has place for that. `Full`
/// comes where that would be longer than a store of which a coordinator can know.
pub(crate) fn opening_of(
    alloc: Global,
    base: Base,
    stored: u32,
    resumed: bool,
) -> Result<Opening, JournalFault>
    ensures opening { IfOk result (IsOpeningOf resumed base) }
    ensures short { IfOk result (λ opening. opening.base.length < 2 ^ 32) }
    ensures refused { IfErr result (OpeningErrorCause stored base.length (restart_room resumed)) }
{
    if let Err(full) = check_room(stored, base.length, resumed) {
        drop(base);
        return Err(full);
    }
    let next = next_ticket(&base.order);
    let Ok(stored) = restarts_of(alloc, &base.order) else {
        drop(base);
        return Err(JournalFault::NoMemory);
    };
    let base = base_opened(base, next, resumed)?;
    let Ok(front) = restarts_of(alloc, &base.order) else {
        drop(base);
        return Err(JournalFault::NoMemory);
    };
    Ok(Opening {
        base,
        next,
        restarts: Restarts { stored, front },
    })
}

/// Looks whether a store of so many bytes has place for a restart, where the call resumes.
fn check_room(stored: u32, length: u64, resumed: bool) -> Result<(), JournalFault>
    ensures room { OnOk result (length + restart_room resumed < 2 ^ 32) }
    ensures full { IfErr result (λ refused. (refused ≡ fault.Full stored length) ×
        (2 ^ 32 ≤ length + restart_room resumed)) }
{
    let more = if resumed { RESTART_BYTES } else { 0 };
    if length > MAX_LENGTH - more {
        return Err(JournalFault::Full { stored, length });
    }
    Ok(())
}

/// The base with a restart of this ticket behind its order, where the call resumes, and with place
/// for that in the store.
fn base_opened(base: Base, next: u64, resumed: bool) -> Result<Base, NoMemory>
    requires { base.length + restart_room resumed < 2 ^ 32 }
    ensures { IfOk result (IsBaseOpened resumed next base) }
{
    let mut base = base;
    if resumed {
        base.order.push(Entry::Restart { ticket: next })?;
        base.length += RESTART_BYTES;
    }
    Ok(base)
}
