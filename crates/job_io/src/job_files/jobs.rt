//! The job of a verb.
ghost use Rattle.std.specs.Prelude.{◌≡◌, [], ◌∷◌, OnOk};
ghost use Rattle.gl_outside.specs.Names.{AppendsNames};
ghost use Rattle.job_io.specs.job_config.Views.{job_view};
ghost use Rattle.job_io.specs.whole_files.FilesUsed.{ReadsFiles};
ghost use Rattle.job_io.specs.job_files.DoableJobs.{agreeing, clash_of_pairs, doable};
ghost use Rattle.job_io.specs.job_files.Inner.Causes.{no_job_of_bytes, no_job_of_file};
ghost use Rattle.job_io.specs.job_files.Inner.Jobs.{TakesJob, said_unless};

use crate::job_config::{JobReading, read_job};
use crate::whole_files::{NotRead, front_of};
use gl_base::{Algorithm, EngineKind, Job, JobFault, Key, MAX_JOB_BYTES};
use gl_outside::Files;
use std::alloc::Global;

/// A verb that reads a job.
#[derive(Clone, Copy)]
pub enum JobVerb {
    /// Runs the job's algorithm. It needs no key of its own.
    Run,
    /// Goes on with a run from the job's store. It needs the store's name.
    Resume,
    /// Cuts the job's graph into atoms. It needs the name for their files.
    Cut,
    /// Makes the job's store. It needs the store's name.
    Init,
}

/// Why there is no job.
#[derive(Drop)]
pub enum NoJob {
    /// The bytes are no job, it lacks a key that the verb needs, or a key does not go with its
    /// algorithm.
    Refused(JobFault),
    /// Its file could not be read.
    ReadFault,
    /// There was not enough memory.
    NoMemory,
}

impl From<NotRead> for NoJob {
    ghost from_gives = { λ not_read no_job. no_job ≡ no_job_of_file not_read };

    fn from(not_read: NotRead) -> Self {
        match not_read {
            NotRead::ReadFault => NoJob::ReadFault,
            NotRead::NoMemory => NoJob::NoMemory,
        }
    }
}

impl From<JobReading> for NoJob {
    ghost from_gives = { λ reading no_job. no_job ≡ no_job_of_bytes reading };

    fn from(reading: JobReading) -> Self {
        match reading {
            JobReading::Fault(fault) => NoJob::Refused(fault),
            JobReading::NoMemory => NoJob::NoMemory,
        }
    }
}

/// The job that the file of this name says. It is refused where its bytes are no job, where it
/// lacks a key that the verb needs, and, unless the verb cuts the graph, where a key does not go
/// with its algorithm.
pub fn job_of<F: Files>(
    alloc: Global,
    files: &mut F,
    name: &str,
    verb: JobVerb,
) -> Result<Job, NoJob>
    ensures answer { TakesJob verb (F.state files.old)
        (F.state files.new).sources.faults name.now result }
    ensures read { ReadsFiles (name.now ∷ []) (F.state files.old) (F.state files.new) }
    ensures handed { OnOk result
        (AppendsNames (F.state files.old).sources.names
        (F.state files.new).sources.names (name.now ∷ [])) }
{
    let bytes = front_of(alloc, files, name, MAX_JOB_BYTES)?;
    let job = read_job(alloc, &bytes)?;
    match refused(&job, verb) {
        None => Ok(job),
        Some(fault) => Err(NoJob::Refused(fault)),
    }
}

/// Why the verb can't do the job: it lacks the key that the verb needs, or a key does not go with
/// its algorithm.
fn refused(job: &Job, verb: JobVerb) -> Option<JobFault>
    ensures { doable verb (job_view job.now) ≡ said_unless (job_view job.now) result }
{
    match verb {
        JobVerb::Cut if job.atoms_at.is_none() => Some(JobFault::Missing(Key::AtomsAt)),
        JobVerb::Resume | JobVerb::Init if job.store.is_none() => Some(JobFault::Missing(
            Key::Store,
        )),
        JobVerb::Cut => None,
        JobVerb::Run | JobVerb::Resume | JobVerb::Init => clash(job),
    }
}

/// Tells the first key whose value does not go with the job's algorithm.
fn clash(job: &Job) -> Option<JobFault>
    ensures { agreeing (job_view job.now) ≡ said_unless (job_view job.now) result }
{
    match job.algorithm {
        Algorithm::Levels | Algorithm::Components | Algorithm::Paths | Algorithm::Colours => None,
        Algorithm::Cores if job.directed => Some(JobFault::Clash(Key::Directed)),
        Algorithm::Cores => None,
        Algorithm::Pairs => Some(JobFault::Clash(clash_of_pairs(job)?)),
    }
}

/// The first key whose value does not go with pairs: a direction, colours, a store or failures.
fn clash_of_pairs(job: &Job) -> Option<Key>
    ensures { result ≡ clash_of_pairs (job_view job.now) }
{
    if job.directed {
        Some(Key::Directed)
    } else if matches!(job.engine, EngineKind::Chromatic) {
        Some(Key::Engine)
    } else if job.store.is_some() {
        Some(Key::Store)
    } else if !job.failures.is_empty() {
        Some(Key::Failures)
    } else {
        None
    }
}
