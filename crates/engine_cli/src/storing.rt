//! Runs the job's algorithm on its graph, from the job's store and into it.
ghost use Rattle.std.specs.Prelude.{true, ◌≡◌, ◌≤◌, IfErr, IfOk, IsTrue, false, length};
ghost use Rattle.job_io.specs.job_config.Views.{job_view};
ghost use Rattle.job_io.specs.job_stores.NewStores.{UsesDisk};
ghost use Rattle.recovery.specs.Journals.{snapshots_in};
ghost use Rattle.recovery.specs.Recovered.{IsHeaderOf};
ghost use Rattle.engine_runs.specs.declared.answers.runs.StoredEnd.TheVariants.{DiskFault};
ghost use Rattle.gl_outside.specs.Faults.{Rose};
ghost use Rattle.gl_outside.specs.FilesState.{disk_past};
ghost use Rattle.gl_outside.specs.Frames.{ChangesDisk};
ghost use Rattle.engine_cli.specs.JobRuns.{RunsOnStore};
ghost use Rattle.engine_cli.specs.Inner.Prepares.{IsPrintable, IsRunnable};
ghost use Rattle.engine_cli.specs.Inner.Storing.{IsStoreRunFrom, IsRunIntoStore, RunOnStoreErrorCause, RunOnDiskErrorCause, RunOnJournalErrorCause, RunStoredErrorCause, no_store_of_open, no_store_of_journal, no_store_of_run};
ghost use Rattle.engine_cli.specs.Plays.{RunsByScopes, update_of};

use crate::playing::{plan_of, program_of};
use engine_runs::answers::{RunInput, StoredPlan, StoredRun};
use engine_runs::run_stored;
use gl_outside::{Disk, DiskOf, Files, Gate, OpenFault};
use graph_programs::gated::Gated;
use job_io::job_files::Input;
use job_io::job_stores::{StoreError, header_of};
use std::alloc::Global;
use std::sync::Wait;
use std::thread::Threads;
use store::snap_journal::{Journal, JournalFault};
use store::store_format::StoreFault;
use update_api::Program;

/// Opens the job's store in the file of this name, and runs the job's algorithm from it and into
/// it. `BadStore` comes where its bytes are none of a store for this job and graph, and, unless the
/// run is resumed, by `Used` where it has snapshots. A store in form that no call leaves may be
/// refused too, at the byte where it ends. Updates pass the gate.
pub fn run_on_store<R: Threads + Wait + Sync, F: Files, G: Gate + Sync>(
    rt: &R,
    alloc: Global,
    files: &mut F,
    name: &str,
    input: &Input,
    resumed: bool,
    gate: &G,
) -> Result<StoredRun, StoreError>
    requires { IsRunnable input.now }
    ensures run { IfOk result
        (IsRunIntoStore F.disks_observable resumed name.now input.now
        (F.state files.old) (F.state files.new)) }
    ensures refused { IfErr result
        (RunOnStoreErrorCause F.disks_observable resumed name.now input.now
        (F.state files.old) (F.state files.new)) }
    ensures printable { IfOk result (IsPrintable input.now.graph) }
    ensures used { UsesDisk name.now (F.state files.old) (F.state files.new) }
{
    let file = match files.open_disk(name) {
        Ok(file) => file,
        Err(fault) => return Err(not_opened(fault)),
    };
    let mut made = Err(StoreError::NoMemory);
    let _disk = run_on_disk(
        rt,
        alloc,
        DiskOf::new(files, file),
        input,
        resumed,
        &mut made,
        gate,
    );
    made
}

/// Opens the store on a disk, and runs the job's algorithm from it and into it. `made` gets the run
/// or why there is none, and the disk is handed back.
fn run_on_disk<R: Threads + Wait + Sync, D: Disk, G: Gate + Sync>(
    rt: &R,
    alloc: Global,
    disk: D,
    input: &Input,
    resumed: bool,
    made: &mut Result<StoredRun, StoreError>,
    gate: &G,
) -> D
    requires { IsRunnable input.now }
    ensures run { IsTrue D.observable →
        IfOk made.new (RunsOnStore resumed (job_view input.now.job) input.now.graph input.now.cut
        (D.past disk) (D.past result)) }
    ensures fault { IfOk made.new (λ run. run.end ≡ DiskFault →
        Rose (D.faults disk) (D.faults result)) }
    ensures printable { IfOk made.new (IsPrintable input.now.graph) }
    ensures refused { IfErr made.new
        (RunOnDiskErrorCause (IsTrue D.observable) resumed (job_view input.now.job) input.now.graph
        input.now.cut (D.past disk) (D.past result) (D.faults disk) (D.faults result)) }
    ensures same { D.same disk result }
    ensures later { D.faults disk ≤ D.faults result }
{
    let header = header_of(&input.job, &input.graph);
    match Journal::open(alloc, disk, &header) {
        Ok(mut journal) => {
            *made = run_on_journal(rt, alloc, input, &mut journal, resumed, gate);
            journal.into_disk()
        }
        Err((fault, disk)) => {
            *made = Err(why_not_run(fault));
            disk
        }
    }
}

/// Runs the job's algorithm from an opened store and into it, which has no snapshots unless the run
/// is resumed.
fn run_on_journal<R: Threads + Wait + Sync, D: Disk, G: Gate + Sync>(
    rt: &R,
    alloc: Global,
    input: &Input,
    journal: &mut Journal<D>,
    resumed: bool,
    gate: &G,
) -> Result<StoredRun, StoreError>
    requires input { IsRunnable input.now }
    requires graph { IsHeaderOf input.now.graph journal.old.header }
    requires machines { journal.old.header.machines ≡ input.now.job.machines }
    requires well { journal.old.failed ≡ false }
    ensures fresh { IsTrue D.observable →
        IfOk result (λ run. resumed ≡ false → length (snapshots_in D.past journal.old) ≡ 0) }
    ensures run { IsTrue D.observable →
        IfOk result (IsStoreRunFrom (job_view input.now.job) input.now.graph input.now.cut
        (update_of input.now.job.algorithm input.now.job.source) journal.old.header resumed
        (snapshots_in D.past journal.old) (D.past journal.old.disk) (D.past journal.new.disk)) }
    ensures fault { IfOk result (λ run. run.end ≡ DiskFault →
        Rose (D.faults journal.old.disk) (D.faults journal.new.disk)) }
    ensures printable { IfOk result (IsPrintable input.now.graph) }
    ensures refused { IfErr result
        (RunOnJournalErrorCause (IsTrue D.observable) resumed
        (job_view input.now.job) input.now.graph
        input.now.cut (update_of input.now.job.algorithm input.now.job.source) journal.old.header
        (snapshots_in D.past journal.old) (D.past journal.old.disk) (D.past journal.new.disk)
        (D.faults journal.old.disk) (D.faults journal.new.disk)) }
    ensures same { D.same journal.old.disk journal.new.disk }
    ensures later { D.faults journal.old.disk ≤ D.faults journal.new.disk }
{
    let count = journal.count();
    let length = journal.length();
    if !resumed && count > 0 {
        return Err(StoreError::BadStore(StoreFault::Used(count)));
    }
    let program = program_of(&input.job);
    match run_stored_by(rt, alloc, input, Gated { program, gate }, journal, resumed) {
        Ok(run) => Ok(run),
        Err(fault) => Err(why_not_run_from(fault, length)),
    }
}

/// Runs a program on the job's graph from an opened store and into it, by the numbers of the job
/// and its failures, with snapshots as its window asks, and one of the end.
fn run_stored_by<R: Threads + Wait + Sync, D: Disk, P: Program + Send + Sync>(
    rt: &R,
    alloc: Global,
    input: &Input,
    program: P,
    journal: &mut Journal<D>,
    resumed: bool,
) -> Result<StoredRun, JournalFault>
    requires input { IsRunnable input.now }
    requires graph { IsHeaderOf input.now.graph journal.old.header }
    requires machines { journal.old.header.machines ≡ input.now.job.machines }
    requires fresh { resumed ≡ false → journal.old.count ≡ 0 }
    requires well { journal.old.failed ≡ false }
    ensures run { IsTrue D.observable →
        IfOk result (IsStoreRunFrom (job_view input.now.job) input.now.graph input.now.cut
        (P.meaning program) journal.old.header resumed
        (snapshots_in D.past journal.old) (D.past journal.old.disk) (D.past journal.new.disk)) }
    ensures fault { IfOk result (λ run. run.end ≡ DiskFault →
        Rose (D.faults journal.old.disk) (D.faults journal.new.disk)) }
    ensures printable { IfOk result (IsPrintable input.now.graph) }
    ensures refused { IfErr result
        (RunStoredErrorCause (IsTrue D.observable) (job_view input.now.job) input.now.graph
        input.now.cut (P.meaning program) journal.old.header
        (snapshots_in D.past journal.old) (D.past journal.old.disk) (D.past journal.new.disk)
        (D.faults journal.old.disk) (D.faults journal.new.disk)) }
    ensures same { D.same journal.old.disk journal.new.disk }
    ensures later { D.faults journal.old.disk ≤ D.faults journal.new.disk }
{
    let job = &input.job;
    let plan = StoredPlan {
        run: plan_of(job),
        window: job.window,
        engine: job.engine,
        saves_end: true,
    };
    let input = RunInput {
        graph: &input.graph,
        cut: &input.cut,
        failures: &job.failures,
        plan,
    };
    run_stored(rt, alloc, &input, program, journal, resumed)
}

/// Why there is no run where the store's file was not opened.
fn not_opened(fault: OpenFault) -> StoreError
    ensures { result ≡ no_store_of_open fault }
{
    match fault {
        OpenFault::Failed => StoreError::DiskFault,
        OpenFault::NoMemory => StoreError::NoMemory,
    }
}

/// Why no run came from an open store of so many bytes. One that is not as calls leave it is bad
/// where it ends.
fn why_not_run_from(fault: JournalFault, length: u64) -> StoreError
    ensures { result ≡ no_store_of_run fault length }
{
    match fault {
        JournalFault::BadStore(_) => StoreError::BadStore(StoreFault::BadByte(length)),
        JournalFault::DiskFault | JournalFault::Failed | JournalFault::Full { .. } => {
            StoreError::DiskFault
        }
        JournalFault::NoMemory => StoreError::NoMemory,
    }
}

/// Why there is no run where the store could not be opened.
fn why_not_run(fault: JournalFault) -> StoreError
    ensures { result ≡ no_store_of_journal fault }
{
    match fault {
        JournalFault::BadStore(fault) => StoreError::BadStore(fault),
        JournalFault::DiskFault | JournalFault::Failed | JournalFault::Full { .. } => {
            StoreError::DiskFault
        }
        JournalFault::NoMemory => StoreError::NoMemory,
    }
}
