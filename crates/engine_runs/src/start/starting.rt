//! A call starts.
ghost use Rattle.std.specs.Prelude.{◌≡◌, ◌<◌, ◌≤◌, false, length, IfErr, IfOk, IsTrue};
ghost use Rattle.engine_runs.specs.start.Starting.{AreJobFailures, ArePlacedFor, Begins, CanBeCut, HasStarted, IsGoodStore, IsHeaderOf, IsInRange, IsRunAt, StartErrorCause, Setting, machine_plan, opening_from, restart_room, run_shared, shared_of, snapshots_in};

use crate::answers::{MachinePlan, RunInput};
use crate::placed::PlacedProgram;
use crate::start::openings::{Opening, opening_of};
use crate::start::placing::places_of;
use crate::start::traces::trace_of;
use cluster_step::trace::Trace;
use gl_base::Entry;
use gl_outside::Disk;
use placed_machines::Places;
use placed_machines::any_machine::AnyMachine;
use recovery::recover;
use recovery::restarts::Restarts;
use std::alloc::Global;
use store::snap_journal::{Journal, JournalFault};
use update_api::Program;

/// A call that has started: its course, where its graph is placed, the order with which its first
/// attempt begins, and the restarts of the store's last order and of that one.
#[derive(Drop)]
pub struct Started<P: Program> {
    pub trace: Trace<AnyMachine<P>>,
    pub places: Places,
    pub order: Vec<Entry>,
    pub restarts: Restarts,
}

/// Starts a call from the last snapshot of the journal, or from the start where there is none:
/// places the graph, which is cut so, as the plan says, makes the machines, of the engine that the
/// plan asks for, and opens the course with the ticket behind the greatest of that order, and with
/// as many tickets as the budget has. Where the call resumes, a restart of that ticket stands
/// behind the order. `Full` comes where the store would have 2^32 bytes or more with that, which is
/// far more than a journal adds up to. After `DiskFault` open the store again.
pub fn start_call<D: Disk, P: Program>(
    alloc: Global,
    input: &RunInput<'_>,
    program: P,
    journal: &mut Journal<D>,
    resumed: bool,
) -> Result<Started<P>, JournalFault>
    requires cut { CanBeCut input.now.graph.now input.now.cut.now }
    requires plan { IsInRange input.now.plan.run }
    requires few { input.now.plan.run.machines < 65535 }
    requires failures { AreJobFailures input.now.plan.run.machines input.now.failures.now }
    requires graph { IsHeaderOf input.now.graph.now journal.old.header }
    requires machines { journal.old.header.machines ≡ input.now.plan.run.machines }
    requires fresh { resumed ≡ false → journal.old.count ≡ 0 }

    // In each setting of the run in which the store is good the call has opened from it, and the
    // store keeps up.
    ensures started { IsTrue D.observable →
        IfOk result (λ started. (st : Setting) →
        IsRunAt input.now.graph.now (P.meaning program) started.places st →
        IsGoodStore (shared_of st input.now.failures.now) journal.old.header
        (snapshots_in D.past journal.old) →
        HasStarted P.meaning started journal.old.header (snapshots_in D.past journal.old)
        resumed input.now.plan.run.budget st) }
    // There is such a setting, with just this owner of each vertex.
    ensures setting { IfOk result (λ started. (st : Setting) ×
        IsRunAt input.now.graph.now (P.meaning program) started.places st ×
        (shared_of st input.now.failures.now ≡ run_shared input.now.graph.now (P.meaning program)
        started.places input.now.failures.now)) }

    ensures places { IfOk result (λ started.
        ArePlacedFor input.now.graph.now input.now.cut.now (machine_plan input.now.plan)
        started.places) }
    ensures failures { IfOk result (λ started. started.trace.failures ≡ input.now.failures.now) }
    ensures machines { IfOk result (λ started.
        length started.trace.now.machines.items ≡ input.now.plan.run.machines) }
    ensures runs { IfOk result (λ started. started.trace.now.stopped ≡ false) }
    ensures restarts { IfOk result (λ started.
        Begins started.restarts.stored.items started.restarts.front.items) }

    ensures refused { IfErr result
        (StartErrorCause D.past (IsTrue D.observable) (restart_room resumed) journal.old journal.new
        (D.faults journal.old.disk) (D.faults journal.new.disk)) }
    ensures well { IfOk result (λ started. (journal.old.failed ≡ false) ×
        (journal.new.failed ≡ false)) }
    ensures past { IsTrue D.observable → D.past journal.new.disk ≡ D.past journal.old.disk }
    ensures kept { journal.new ≡ record journal.old {
      disk = journal.new.disk;
      failed = journal.new.failed;
    } }
    ensures same { D.same journal.old.disk journal.new.disk }
    ensures later { D.faults journal.old.disk ≤ D.faults journal.new.disk }
{
    let stored = journal.count();
    let base = recover(alloc, journal, input.graph, &program)?;
    let opening = opening_of(alloc, base, stored, resumed)?;
    let plan = MachinePlan {
        run: input.plan.run,
        engine: input.plan.engine,
        window: Some(input.plan.window),
    };
    let Ok(places) = places_of(alloc, input.graph, &opening.base, input.cut, plan) else {
        drop(opening);
        return Err(JournalFault::NoMemory);
    };
    let placed = PlacedProgram {
        graph: input.graph,
        program,
        places: &places,
    };
    let Ok(trace) = trace_of(
        alloc,
        &placed,
        &opening,
        input.plan.run.budget,
        input.failures,
    ) else {
        drop(places);
        drop(opening);
        return Err(JournalFault::NoMemory);
    };
    let Opening { base, restarts, .. } = opening;
    Ok(Started {
        trace,
        places,
        order: base.order,
        restarts,
    })
}
