//! The snapshot that is due is added to a store, and acknowledged.
ghost use Rattle.std.specs.Prelude.{Err, List, ◌≡◌, ◌+◌, ◌<◌, ◌^◌, ◌≤◌, ℕ, false, IfErr, IfOk, IsErrOf, IsTrue, OnErr, OnOk};
ghost use Rattle.gl_base.specs.declared.entries.Entry.{Entry};
ghost use Rattle.engine_runs.specs.append.Appends.{Begins, CallOpening, FromKnownJournal, HasOneMore, IsDueWith, IsGoodImage, IsNewestLine, AppendDueErrorCause, KnowsJournal, LeavesOnly, NeedsMore, Setting, snapshots_in};
ghost use Rattle.engine_runs.specs.append.Inner.Storing.{no_record};
ghost use Rattle.cluster_step.specs.trace.Traces.{IsSameAttempt};
ghost use Rattle.cluster_step.specs.trace.Events.{CanHappenInCall, IsEventDisabled, HappensInCall, StaysThere};
ghost use Rattle.cluster_laws.specs.cluster_runs.Recorded.{shared_of};
ghost use Rattle.coordinator.specs.coord_core.Calls.{IsDueOf};
ghost use Rattle.cluster_step.specs.clusters.Events.{IsReadyToAcknowledge};

use crate::answers::SnapLine;
use crate::append::faults::AppendFault;
use crate::append::storing::store_record;
use cluster_step::trace::{Due, Event, Lead, SavingMachine, Trace};
use gl_base::{Record, Refused};
use gl_outside::Disk;
use recovery::restarts::{Restarts, missing_restarts, record_behind};
use std::alloc::Global;
use store::snap_journal::Journal;

/// Puts the record of the snapshot that is due into the journal, with the restarts that the store
/// lacks, and acknowledges the snapshot in the course only once the journal has it. Between them
/// nothing can fail. `Full` comes where the snapshot may not be acknowledged since the store takes
/// no snapshot more, or not this one. After each error the trace is where it was, and after each
/// but `DiskFault` the journal is unchanged; after `DiskFault` the store has to be opened again,
/// and may have the snapshot, which was not acknowledged.
pub(crate) fn append_due<D: Disk, M: SavingMachine>(
    alloc: Global,
    trace: &mut Trace<M>,
    journal: &mut Journal<D>,
    restarts: &mut Restarts,
) -> Result<SnapLine, AppendFault>
    requires well { journal.old.failed ≡ false }
    requires first { Begins restarts.old.stored.items restarts.old.front.items }

    // The snapshot is acknowledged where it was added.
    ensures acknowledged { OnOk result
        (HappensInCall M.represents trace.old (Event.Lead Lead.Record) trace.new) }
    ensures since { OnOk result
        (IsSameAttempt (record trace.old { since = trace.new.now }) trace.new) }
    ensures stays { OnErr result (StaysThere M.represents trace.old trace.new) }
    ensures same { OnErr result (IsSameAttempt trace.old trace.new) }

    // The store has each restart that the newest attempt began with.
    ensures restarts { OnOk result ((restarts.new.front ≡ restarts.old.front) ×
        (restarts.new.stored.items ≡ restarts.old.front.items)) }
    ensures kept { OnErr result (restarts.new ≡ restarts.old) }

    // What is known of the store is known of what it has now.
    ensures more { IsTrue D.observable → OnOk result (HasOneMore D.past journal.old journal.new) }
    ensures known { IsTrue D.observable →
        OnOk result ((start : List (List ℕ)) (lost order : List Entry)
        (st : Setting) (o : CallOpening) →
        KnowsJournal M.represents D.past trace.old journal.old start lost restarts.old order st o →
        KnowsJournal M.represents D.past trace.new journal.new start lost restarts.new order st o) }
    ensures line { IsTrue D.observable →
        IfOk result (λ line.
        FromKnownJournal M.represents D.past trace.old journal.old restarts.old (λ st o.
        IsNewestLine st trace.old.failures (snapshots_in D.past journal.new) line)) }

    // Whatever a crash leaves at any moment of the call is a good store, with the snapshot or
    // without it.
    ensures any_moment { IsTrue D.observable →
        FromKnownJournal M.represents D.past trace.old journal.old restarts.old (λ st o.
        LeavesOnly (D.past journal.old.disk) (D.past journal.new.disk)
        (IsGoodImage (shared_of st trace.old.failures) journal.old.header
        (snapshots_in D.past journal.old))) }

    // `Full` comes only where more of the store was needed.
    ensures needed { IsTrue D.observable →
        FromKnownJournal M.represents D.past trace.old journal.old restarts.old (λ st o.
        (k : ℕ) → IsDueOf trace.old.now.coordinator (Due.Record k) → (stored long : ℕ) →
        IsErrOf result (AppendFault.Full stored long) → NeedsMore M.represents trace.old st o) }

    // A record that is due is in the form of the store, where the call draws fewer tickets than
    // each snapshot may have.
    ensures form { IsTrue D.observable →
        FromKnownJournal M.represents D.past trace.old journal.old restarts.old (λ st o.
        o.first.left < 33554432 → IsErrOf result AppendFault.NotInForm → ⊥) }

    ensures refused { IfErr result
        (AppendDueErrorCause M.represents trace.old restarts.old journal.old journal.new
        (D.faults journal.old.disk) (D.faults journal.new.disk)) }
    ensures header { journal.new.header ≡ journal.old.header }
    ensures counted { OnOk result (journal.new.count ≡ journal.old.count + 1) }
    ensures short { OnOk result (journal.new.length ≤ 2 ^ 30) }
    ensures well { OnOk result (journal.new.failed ≡ false) }
    ensures disk { D.same journal.old.disk journal.new.disk }
    ensures later { D.faults journal.old.disk ≤ D.faults journal.new.disk }
{
    let stored = journal.count();
    let length = journal.length();
    let made = match due_record(alloc, trace, restarts) {
        Ok(made) => made,
        Err(refused) => return Err(no_record(refused, stored, length)),
    };
    let line = store_record(alloc, journal, restarts, &made)?;
    trace.acknowledge(made.number);
    Ok(line)
}

/// The record of the snapshot that is due, with the restarts that the store lacks. It acknowledges
/// nothing. `NotNow` comes exactly where the snapshot may not be acknowledged.
fn due_record<M: SavingMachine>(
    alloc: Global,
    trace: &mut Trace<M>,
    restarts: &Restarts,
) -> Result<Record, Refused>
    requires { Begins restarts.now.stored.items restarts.now.front.items }
    ensures made { IfOk result (IsDueWith M.represents trace.old restarts.now) }
    ensures ready { IfOk result (λ made. IsReadyToAcknowledge trace.new.now made.number) }
    ensures due { OnOk result (CanHappenInCall M.represents trace.old (Event.Lead Lead.Record)) }
    ensures not_now { IsErrOf result Refused.NotNow →
        IsEventDisabled M.represents trace.old (Event.Lead Lead.Record) }
    ensures stays { StaysThere M.represents trace.old trace.new }
    ensures same { IsSameAttempt trace.old trace.new }
{
    let missing = missing_restarts(alloc, &restarts.stored, &restarts.front, 0, 0)?;
    let saved = trace.record(alloc)?;
    Ok(record_behind(alloc, saved, &missing)?)
}

/// Why no record was made, for a store of so many snapshots and bytes.
fn no_record(refused: Refused, stored: u32, length: u64) -> AppendFault
    ensures { result ≡ no_record refused stored length }
{
    match refused {
        Refused::NotNow => AppendFault::Full { stored, length },
        Refused::NoMemory => AppendFault::NoMemory,
    }
}
