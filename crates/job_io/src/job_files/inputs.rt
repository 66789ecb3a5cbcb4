//! The job of a verb, with its graph.
ghost use Rattle.std.specs.Prelude.{◌≡◌, ◌≤◌, IfOk, OnOk};
ghost use Rattle.gl_outside.specs.Frames.{ChangesSources};
ghost use Rattle.gl_outside.specs.Names.{AppendsNames};
ghost use Rattle.job_io.specs.whole_files.FilesUsed.{ReadsFiles};
ghost use Rattle.job_io.specs.declared.job_files.inputs.NoInput.TheVariants.{NoMemory};
ghost use Rattle.job_io.specs.job_files.Inner.Causes.{no_input_of_file, no_input_of_graph, no_input_of_job};
ghost use Rattle.job_io.specs.job_files.Inner.AtomsRead.{TakesNamedAtoms, named_atoms};
ghost use Rattle.graph_atoms.specs.declared.atom_gather.cuts.Cut.TheVariants.{Grown};
ghost use Rattle.job_io.specs.job_config.Views.{job_view};
ghost use Rattle.job_io.specs.job_files.Atoms.{IsCutOf};
ghost use Rattle.job_io.specs.job_files.Inputs.{IsInput, IsRunInput, RefusesEarly};
ghost use Rattle.job_io.specs.job_files.NamesRead.{RunOpens, names_of};

use crate::job_files::JobVerb;
use crate::job_files::atoms::read_cut;
use crate::job_files::graphs::graph_of;
use crate::job_files::jobs::{NoJob, job_of};
use crate::job_files::sources::lacked_source;
use crate::whole_files::NotRead;
use gl_base::{AtomsFault, Job, JobFault, Key, TextFault};
use gl_outside::Files;
use graph_atoms::atom_gather::Cut;
use graph_core::Graph;
use graph_text::Reading;
use std::alloc::Global;

/// A job with its graph, and how a run of it cuts the graph into atoms.
#[derive(Drop)]
pub struct Input {
    pub job: Job,
    pub graph: Graph,
    pub cut: Cut,
}

/// Why a job or its graph was not read.
#[derive(Drop)]
pub enum NoInput {
    /// The job is refused: its bytes are no job, it lacks a key that the verb needs, a key does not
    /// go with its algorithm, or its source is no vertex of the graph.
    BadJob(JobFault),
    /// A graph text is refused.
    BadGraph(TextFault),
    /// The index or an atom at the job's prefix is refused.
    BadAtoms(AtomsFault),
    /// A file could not be read.
    ReadFault,
    /// There was not enough memory.
    NoMemory,
}

impl From<NoJob> for NoInput {
    ghost from_gives = { λ no_job why. why ≡ no_input_of_job no_job };

    fn from(no_job: NoJob) -> Self {
        match no_job {
            NoJob::Refused(fault) => NoInput::BadJob(fault),
            NoJob::ReadFault => NoInput::ReadFault,
            NoJob::NoMemory => NoInput::NoMemory,
        }
    }
}

impl From<Reading> for NoInput {
    ghost from_gives = { λ reading why. why ≡ no_input_of_graph reading };

    fn from(reading: Reading) -> Self {
        match reading {
            Reading::Text(fault) => NoInput::BadGraph(fault),
            Reading::ReadFault => NoInput::ReadFault,
            Reading::NoMemory => NoInput::NoMemory,
        }
    }
}

impl From<NotRead> for NoInput {
    ghost from_gives = { λ not_read why. why ≡ no_input_of_file not_read };

    fn from(not_read: NotRead) -> Self {
        match not_read {
            NotRead::ReadFault => NoInput::ReadFault,
            NotRead::NoMemory => NoInput::NoMemory,
        }
    }
}

impl From<gl_base::NoMemory> for NoInput {
    ghost from_gives = { λ _ why. why ≡ NoMemory };

    fn from(_: gl_base::NoMemory) -> Self {
        NoInput::NoMemory
    }
}

/// Reads the job in the file of this name and the graph that it names. The job's file is looked at
/// first, then what it says and the key that the verb needs, then, unless the verb cuts the graph,
/// whether each key goes with the algorithm, then the vertex text, the edge text, and last whether
/// the source that the algorithm needs is a vertex. The graph is cut by its growth into as many
/// atoms as the job says.
pub fn read_input<F: Files>(
    alloc: Global,
    files: &mut F,
    file: &str,
    verb: JobVerb,
) -> Result<Input, NoInput>
    ensures answer { IsInput verb (F.state files.old)
        (F.state files.new).sources.faults file.now result }
    ensures read { ReadsFiles (names_of verb (F.state files.old) file.now)
        (F.state files.old) (F.state files.new) }
    ensures handed { OnOk result
        (AppendsNames (F.state files.old).sources.names (F.state files.new).sources.names
        (names_of verb (F.state files.old) file.now)) }
    ensures cut { IfOk result (λ input. input.cut ≡ Grown input.job.atoms) }
{
    let job = job_of(alloc, files, file, verb)?;
    let graph = graph_of(alloc, files, &job)?;
    match lacked_source(&graph, &job) {
        None => {
            let cut = Cut::Grown(job.atoms);
            Ok(Input { job, graph, cut })
        }
        Some(source) => Err(NoInput::BadJob(JobFault::OutOfRange(Key::Source, source))),
    }
}

/// Reads the job in the file of this name and the graph that it names, as `read_input` does, and
/// then, where the job names a prefix of atoms, the index there and the atoms of its number. They
/// are refused where they are not those of the graph under any assignment of its vertices; else the
/// graph is cut by that assignment, into as many atoms as the index says.
pub fn read_run_input<F: Files>(
    alloc: Global,
    files: &mut F,
    file: &str,
    verb: JobVerb,
) -> Result<Input, NoInput>
    ensures answer { IsRunInput verb (F.state files.old)
        (F.state files.new).sources.faults file.now result }
    ensures frame { ChangesSources (F.state files.old) (F.state files.new) }
    ensures handed { RunOpens verb (F.state files.old) (F.state files.new) file.now }
    ensures refused { RefusesEarly verb file.now (F.state files.old) (F.state files.new) result }
    ensures later { (F.state files.old).sources.faults ≤ (F.state files.new).sources.faults }
    ensures cut { IfOk result (λ input.
        IsCutOf (F.state files.old) (job_view input.job).fields input.graph input.cut) }
{
    let input = read_input(alloc, files, file, verb)?;
    match cut_of(alloc, files, &input) {
        Ok(cut) => Ok(Input { cut, ..input }),
        Err(why) => Err(why),
    }
}

/// How a run of the job cuts the graph: by the atoms at the prefix that the job names, if it names
/// one.
fn cut_of<F: Files>(alloc: Global, files: &mut F, input: &Input) -> Result<Cut, NoInput>
    ensures answer { TakesNamedAtoms input.now.job.atoms_at input.now.job.atoms (F.state files.old)
        (F.state files.new).sources.faults input.now.graph result }
    ensures read { ReadsFiles (named_atoms (F.state files.old) input.now.job.atoms_at)
        (F.state files.old) (F.state files.new) }
{
    match &input.job.atoms_at {
        None => Ok(Cut::Grown(input.job.atoms)),
        Some(prefix) => read_cut(alloc, files, prefix.as_str(), &input.graph),
    }
}
