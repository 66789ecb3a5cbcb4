//! All machines of a call go back.
ghost use Rattle.std.specs.Prelude.{◌≡◌, ◌≤◌, ◌+◌, ◌*◌, ◌^◌, ℕ, List, true, false, length, IfErr, IfOk, IsTrue, OnErr, OnOk};
ghost use Rattle.engine_runs.specs.rollback.Failing.{HaveFailedSince};
ghost use Rattle.engine_runs.specs.rollback.Returning.{ArePlacesOf, Begins, CallOpening, HasReachedSome, InEachTrace, IsAnyMachineOf, IsKnownTrace, IsRunAt, IsSameAttempt, GoBackErrorCause, Setting};
ghost use Rattle.cluster_laws.specs.cluster_model.Events.{failures_in};
ghost use Rattle.gl_base.specs.declared.entries.Entry.{Entry};
ghost use Rattle.recovery.specs.Recovered.{IsHeaderOf};
ghost use Rattle.store.specs.snap_journal.Journals.{snapshots_in};

use crate::placed::PlacedProgram;
use crate::rollback::failing::fail_reached;
use crate::rollback::next_attempts::next_attempt;
use cluster_step::trace::Trace;
use gl_base::{Entry, NoMemory};
use gl_outside::Disk;
use placed_machines::any_machine::AnyMachine;
use recovery::restarts::Restarts;
use std::alloc::Global;
use store::snap_journal::{Journal, JournalFault};
use update_api::Program;

/// All machines go back after failures: each that has reached the count of a failure fails, and the
/// next attempt begins from the store's last snapshot, with the restarts behind its order that the
/// store lacks and one for each failure. What that takes away goes behind `lost`, and
/// `restarts` has the restarts of the order that the next attempt begins with. That order is the answer.
///
/// `Full` comes where the store has no place for these restarts. After an error the next attempt hasn't begun: machines may have failed,
/// and `lost` and `restarts` are as they were. After `NoMemory` call it again, and after
/// `DiskFault` open the store again.
pub fn go_back<D: Disk, P: Program>(
    alloc: Global,
    trace: &mut Trace<AnyMachine<P>>,
    journal: &mut Journal<D>,
    placed: &PlacedProgram<'_, P>,
    restarts: &mut Restarts,
    lost: &mut Vec<Entry>,
) -> Result<Vec<Entry>, JournalFault>
    requires places { ArePlacesOf placed.now.graph.now
        (length trace.old.now.machines.items) placed.now.places.now }
    requires header { IsHeaderOf placed.now.graph.now journal.old.header }
    requires first { Begins restarts.old.stored.items restarts.old.front.items }

    // Of a disk that tells what it holds: where the store has kept up with the run from an opening,
    // in which a machine has reached the count of a failure, it has with the run as it goes on.
    ensures back { IsTrue D.observable → trace.old.now.stopped ≡ false →
        (start : List (List ℕ)) (order : List Entry) (st : Setting) (o : CallOpening) →
        IsRunAt placed.now.graph.now (P.meaning placed.now.program) placed.now.places.now st →
        (known : IsKnownTrace (IsAnyMachineOf P.meaning) trace.old journal.old.header start
        (snapshots_in D.past journal.old) lost.old.items restarts.old.stored.items
        restarts.old.front.items order st o) →
        HasReachedSome trace.old st known.was.cluster →
        IfOk result (λ order.
        IsKnownTrace (IsAnyMachineOf P.meaning) trace.new journal.old.header start
        (snapshots_in D.past journal.old) lost.new.items restarts.new.stored.items
        restarts.new.front.items order.items st o) }

    // Whatever the disk holds.
    ensures since { OnOk result (trace.new.since ≡ trace.new.now) }
    ensures runs { OnOk result (trace.new.now.stopped ≡ false) }
    ensures call { (trace.new.start ≡ trace.old.start) ×
        (trace.new.failures ≡ trace.old.failures) ×
        (length trace.new.now.machines.items ≡ length trace.old.now.machines.items) }
    ensures first { Begins restarts.new.stored.items restarts.new.front.items }
    ensures stored { restarts.new.stored ≡ restarts.old.stored }
    ensures lost { Begins lost.old.items lost.new.items }

    ensures refused { IfErr result
        (GoBackErrorCause (IsTrue D.observable)
        (InEachTrace (IsAnyMachineOf P.meaning) trace.new (λ st o events c.
        st.stored ≡ true → 2 ^ 32 ≤ c.coordinator.store_end + 16 * failures_in st c))
        journal.old.failed journal.new.failed (D.faults journal.old.disk)
        (D.faults journal.new.disk)) }
    ensures attempt { OnErr result (IsSameAttempt trace.old trace.new) }
    ensures failed { OnErr result
        (InEachTrace (IsAnyMachineOf P.meaning) trace.old
        (HaveFailedSince (IsAnyMachineOf P.meaning) trace.new (λ a. ⊥))) }
    ensures unlost { OnErr result ((lost.new ≡ lost.old) × (restarts.new ≡ restarts.old)) }

    // The journal is as it is where its last snapshot is read.
    ensures well { OnOk result ((journal.old.failed ≡ false) × (journal.new.failed ≡ false)) }
    ensures past { IsTrue D.observable → D.past journal.new.disk ≡ D.past journal.old.disk }
    ensures kept { journal.new ≡ record journal.old {
      disk = journal.new.disk;
      failed = journal.new.failed;
    } }
    ensures same { D.same journal.old.disk journal.new.disk }
    ensures later { D.faults journal.old.disk ≤ D.faults journal.new.disk }
{
    fail_reached(trace)?;
    let next = next_attempt(alloc, trace, journal, placed, restarts, lost)?;
    if let Err(NoMemory) = trace.recover(
        alloc,
        next.machines,
        placed.places.run.engine,
        next.store,
    ) {
        drop(next.order);
        drop(next.front);
        drop(next.lost);
        return Err(JournalFault::NoMemory);
    }
    restarts.front = next.front;
    *lost = next.lost;
    Ok(next.order)
}
