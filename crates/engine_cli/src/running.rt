//! Runs the job in a file.
ghost use Rattle.std.specs.Prelude.{◌≡◌, ℕ, ◌≤◌, [], false, List, IfErr, IfOk};
ghost use Rattle.gl_outside.specs.Frames.{ChangesSources};
ghost use Rattle.job_io.specs.job_files.NamesRead.{RunOpens, names_of};
ghost use Rattle.job_io.specs.whole_files.FilesUsed.{OpensInOrder};
ghost use Rattle.engine_cli.specs.Frame.{KeepsFiles, KeepsSink};
ghost use Rattle.engine_cli.specs.Inner.Prepares.{CanRun, ChangesInput, IsMadeRun, IsOfRun, IsPrepared, IsPrintable, IsRunnable, RunInputErrorCause, UsesNamed, unfinished_status};
ghost use Rattle.engine_cli.specs.JobRuns.{is_resumed, lists_of_call, lists_of_run, no_lists};
ghost use Rattle.engine_cli.specs.JobStores.{UsesStore};
ghost use Rattle.engine_cli.specs.StatusMeanings.{moment};
ghost use Rattle.engine_cli.specs.Status.{IsInputRefusal, IsBeforeWriting, IsRefusedInput};
ghost use Rattle.engine_cli.specs.Verbs.{IsRun};

use crate::failing::run_without_store;
use crate::pairing::run_pairs;
use crate::printing::print_run;
use crate::storing::run_on_store;
use crate::{Ended, Status};
use engine_runs::answers::{StoredEnd, StoredRun};
use gl_base::{Algorithm, Job, NoMemory};
use gl_outside::{Files, Gate, Sink};
use graph_core::Graph;
use graph_text::generate::Writing;
use job_io::job_files::{Input, JobVerb, read_run_input};
use job_io::job_stores::StoreError;
use std::alloc::Global;
use std::sync::Wait;
use std::thread::Threads;

/// What is asked of a run: by which verb, of the job in which file, and whether its answer is
/// reported.
#[derive(Clone, Copy)]
pub struct RunAsked<'a> {
    pub verb: JobVerb,
    pub file: &'a str,
    pub is_reported: bool,
}

/// How a run ended, what it leaves, and what is to be reported of it.
#[derive(Drop)]
pub struct RunEnd {
    pub ended: Ended,
    pub report: Vec<u8>,
}

/// A run that was made, with its job and its graph.
#[derive(Drop)]
pub struct Prepared {
    pub job: Job,
    pub graph: Graph,
    pub run: StoredRun,
}

/// Reads the job and its graph, runs the job's algorithm, from the job's store and into it where it
/// names one, and writes the order of its updates and the numbers of the vertices. As each update
/// begins, the gate is passed.
pub fn run_job<R: Threads + Wait + Sync, F: Files, K: Sink, G: Gate + Sync>(
    rt: &R,
    alloc: Global,
    asked: &RunAsked<'_>,
    files: &mut F,
    out: &mut K,
    gate: &G,
) -> RunEnd
    requires { IsOfRun asked.now.verb }
    ensures run { IsRun F.disks_observable asked.now.verb asked.now.file.now asked.now.is_reported
        (moment (F.state files.old) (K.faults out.old) (K.held out.old))
        (moment (F.state files.new) (K.faults out.new) (K.held out.new))
        (λ report. result.report.items ≡ report) (lists_of_call result.ended) result.ended.status }
    ensures quiet { asked.now.is_reported ≡ false → result.report.items ≡ [] }
    ensures untouched { IsBeforeWriting result.ended.status → out.new ≡ out.old }
    ensures frame { KeepsFiles (F.state files.old) (F.state files.new) ×
        KeepsSink K.same K.faults out.old out.new }
{
    let prepared = match prepare(rt, alloc, asked.verb, asked.file, files, gate) {
        Ok(prepared) => prepared,
        Err(status) => return refused(alloc, status),
    };
    if let Some(status) = unfinished(prepared.run.end) {
        return ended(status, Vec::new(alloc), prepared);
    }
    match print_run(alloc, files, out, &prepared, asked.is_reported) {
        Ok(report) => ended(Status::Done, report, prepared),
        Err(Writing::WriteFault) => ended(Status::WriteFault, Vec::new(alloc), prepared),
        Err(Writing::NoMemory) => refused(alloc, Status::NoMemory),
    }
}

/// Reads the job and its graph, and runs the job's algorithm.
fn prepare<R: Threads + Wait + Sync, F: Files, G: Gate + Sync>(
    rt: &R,
    alloc: Global,
    asked: JobVerb,
    file: &str,
    files: &mut F,
    gate: &G,
) -> Result<Prepared, Status>
    requires { IsOfRun asked }
    ensures answer { IsPrepared F.disks_observable asked (F.state files.old)
        (F.state files.new) file.now result }
    ensures frame { ChangesInput (F.state files.old) (F.state files.new) }
    ensures early { IfErr result (λ status. IsInputRefusal status →
        ChangesSources (F.state files.old) (F.state files.new)) }
    ensures handed { RunOpens asked (F.state files.old) (F.state files.new) file.now }
    ensures refused { IfErr result (λ status. IsRefusedInput status →
        OpensInOrder (F.state files.old).sources.names (F.state files.new).sources.names
        (names_of asked (F.state files.old) file.now)) }
    ensures used { UsesStore asked file.now (F.state files.old) (F.state files.new) }
    ensures later { (F.state files.old).sources.faults ≤ (F.state files.new).sources.faults }
{
    let input = read_run_input(alloc, files, file, asked)?;
    match run_input(rt, alloc, asked, files, &input, gate) {
        Ok(run) => Ok(Prepared {
            job: input.job,
            graph: input.graph,
            run,
        }),
        Err(why) => Err(why.into()),
    }
}

/// Runs the job's algorithm: pairs on machines whose updates write their whole scopes, and every
/// other one on those of an engine.
fn run_input<R: Threads + Wait + Sync, F: Files, G: Gate + Sync>(
    rt: &R,
    alloc: Global,
    asked: JobVerb,
    files: &mut F,
    input: &Input,
    gate: &G,
) -> Result<StoredRun, StoreError>
    requires { CanRun input.now }
    ensures made { IfOk result
        (IsMadeRun F.disks_observable asked input.now (F.state files.old) (F.state files.new)) }
    ensures printable { IfOk result (IsPrintable input.now.graph) }
    ensures refused { IfErr result
        (RunInputErrorCause F.disks_observable asked input.now (F.state files.old)
        (F.state files.new) input.now.job.store) }
    ensures used { UsesNamed input.now.job.store (F.state files.old) (F.state files.new) }
{
    match input.job.algorithm {
        Algorithm::Pairs => {
            match run_pairs(rt, alloc, &input.graph, &input.cut, &input.job, gate) {
                Ok(run) => Ok(run),
                Err(NoMemory) => Err(StoreError::NoMemory),
            }
        }
        Algorithm::Levels | Algorithm::Components | Algorithm::Paths => {
            run_by_scopes(rt, alloc, asked, files, input, gate)
        }
        Algorithm::Colours | Algorithm::Cores => {
            run_by_scopes(rt, alloc, asked, files, input, gate)
        }
    }
}

/// Runs the job's algorithm, on its store where the job names one.
fn run_by_scopes<R: Threads + Wait + Sync, F: Files, G: Gate + Sync>(
    rt: &R,
    alloc: Global,
    asked: JobVerb,
    files: &mut F,
    input: &Input,
    gate: &G,
) -> Result<StoredRun, StoreError>
    requires { IsRunnable input.now }
    ensures made { IfOk result
        (IsMadeRun F.disks_observable asked input.now (F.state files.old) (F.state files.new)) }
    ensures printable { IfOk result (IsPrintable input.now.graph) }
    ensures refused { IfErr result
        (RunInputErrorCause F.disks_observable asked input.now (F.state files.old)
        (F.state files.new) input.now.job.store) }
    ensures used { UsesNamed input.now.job.store (F.state files.old) (F.state files.new) }
{
    match &input.job.store {
        None => match run_without_store(rt, alloc, &input.graph, &input.cut, &input.job, gate) {
            Ok(run) => Ok(run),
            Err(NoMemory) => Err(StoreError::NoMemory),
        },
        Some(name) => {
            let resumed = is_resumed(asked);
            run_on_store(rt, alloc, files, name.as_str(), input, resumed, gate)
        }
    }
}

/// Whether the verb goes on from what the store has.
fn is_resumed(asked: JobVerb) -> bool
    ensures { result ≡ is_resumed asked }
{
    match asked {
        JobVerb::Resume => true,
        JobVerb::Run | JobVerb::Cut | JobVerb::Init => false,
    }
}

/// The status of a run that left a task.
fn unfinished(end: StoredEnd) -> Option<Status>
    ensures { result ≡ unfinished_status end }
{
    match end {
        StoredEnd::Finished => None,
        StoredEnd::Spent(left) => Some(Status::BudgetSpent { left }),
        StoredEnd::Full { stored, length } => Some(Status::SnapshotsFull { stored, length }),
        StoredEnd::DiskFault => Some(Status::DiskFault),
    }
}

/// The end of a run that was made, with what is to be told of it.
fn ended(status: Status, report: Vec<u8>, prepared: Prepared) -> RunEnd
    ensures status { result.ended.status ≡ status }
    ensures report { result.report.items ≡ report.items }
    ensures lists { lists_of_call result.ended ≡ lists_of_run prepared.run }
{
    let Prepared { run, .. } = prepared;
    RunEnd {
        ended: Ended {
            status,
            order: run.order,
            lost: run.lost,
            done: run.done,
            fired: run.fired,
            snapshots: run.snapshots,
        },
        report,
    }
}

/// The end of a run that was refused before it was made, or that left nothing.
fn refused(alloc: Global, status: Status) -> RunEnd
    ensures status { result.ended.status ≡ status }
    ensures report { result.report.items ≡ [] }
    ensures lists { lists_of_call result.ended ≡ no_lists }
{
    RunEnd {
        ended: no_run(alloc, status),
        report: Vec::new(alloc),
    }
}

/// What a call leaves that ended so and made no run.
pub fn no_run(alloc: Global, status: Status) -> Ended
    ensures status { result.status ≡ status }
    ensures none { lists_of_call result ≡ no_lists }
{
    Ended {
        status,
        order: Vec::new(alloc),
        lost: Vec::new(alloc),
        done: Vec::new(alloc),
        fired: Vec::new(alloc),
        snapshots: Vec::new(alloc),
    }
}
