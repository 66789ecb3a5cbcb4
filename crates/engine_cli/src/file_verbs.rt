//! The verbs that do their work on files alone: `make` writes a graph, `cut` the index and the
//! atoms of one, and `init` a store.
ghost use Rattle.std.specs.Prelude.{◌≡◌, List, ℕ};
ghost use Rattle.gl_base.specs.declared.jobs.MakePlan.{MakePlan};
ghost use Rattle.job_io.specs.declared.job_words.words.Words.TheVariants.{Cut, Init, Make};
ghost use Rattle.engine_cli.specs.declared.status.Status.TheVariants.{Done};
ghost use Rattle.engine_cli.specs.Status.{IsRefusal};
ghost use Rattle.engine_cli.specs.Frame.{KeepsFiles, KeepsSink};
ghost use Rattle.engine_cli.specs.Made.{IsAsked, IsOfFiles};
ghost use Rattle.engine_cli.specs.Notes.{WritesNote, note_of};
ghost use Rattle.engine_cli.specs.Verbs.{IsCutting, IsInit, IsMaking};

use crate::Status;
use crate::notes::refuse;
use gl_base::UsageFault;
use gl_outside::{Files, Sink};
use job_io::graph_files::{make_files, write_cut};
use job_io::job_files::{Input, JobVerb, read_input};
use job_io::job_stores::{header_of, make_store};
use job_io::job_words::Words;
use std::alloc::Global;

/// Does what a command line asks whose verb is neither `run` nor `resume`, as `engine` does it, and
/// writes nothing to `out`. `make` writes the vertex text and the edge text of the plan's graph to
/// the files PREFIX.v and PREFIX.e. `cut` reads the job and the graph that it names, cuts the graph
/// into as many atoms as the job has, and writes the index and each atom to the files PREFIX.index,
/// PREFIX.0.atom, PREFIX.1.atom, .. at the job's prefix for atoms. Where one of these two is
/// refused each of its files is what it was, or holds a front of its bytes. `init` reads the job
/// and the graph that it names, and makes the job's store of a file that is missing or has no
/// bytes; any other is refused by `NotEmpty`, and stays as it is. After `DiskFault` a file that had
/// no bytes may have any.
pub fn files_only<F: Files, K: Sink, N: Sink>(
    alloc: Global,
    words: &Words,
    files: &mut F,
    out: &mut K,
    note: &mut N,
) -> Status
    requires asked { IsAsked words.now }
    requires verb { IsOfFiles words.now }
    ensures make { (prefix : List ℕ) (plan : MakePlan) → words.now ≡ Make prefix plan →
        IsMaking prefix plan (F.state files.old) (F.state files.new) result }
    ensures cut { (file : List ℕ) → words.now ≡ Cut file →
        IsCutting file (F.state files.old) (F.state files.new) result }
    ensures init { (file : List ℕ) → words.now ≡ Init file →
        IsInit F.disks_observable file (F.state files.old) (F.state files.new) result }
    ensures untouched { out.new ≡ out.old }
    ensures note { IsRefusal result →
        WritesNote (note_of result) (N.held note.old) (N.held note.new)
        (N.faults note.old) (N.faults note.new) }
    ensures done { result ≡ Done → note.new ≡ note.old }
    ensures frame { KeepsFiles (F.state files.old) (F.state files.new) ×
        KeepsSink N.same N.faults note.old note.new }
{
    match words {
        Words::Run { .. } | Words::Resume { .. } => refuse(note, Status::Usage(UsageFault::Verb)),
        Words::Make { prefix, plan } => match make_files(alloc, files, prefix.as_str(), plan) {
            Ok(()) => Status::Done,
            Err(why) => refuse(note, why.into()),
        },
        Words::Cut { file } => match cut_job(alloc, files, file.as_str()) {
            Status::Done => Status::Done,
            status => refuse(note, status),
        },
        Words::Init { file } => match init_job(alloc, files, file.as_str()) {
            Status::Done => Status::Done,
            status => refuse(note, status),
        },
    }
}

/// Reads the job and its graph, cuts the graph, and writes the index and the atoms.
fn cut_job<F: Files>(alloc: Global, files: &mut F, file: &str) -> Status
    ensures cut { IsCutting file.now (F.state files.old) (F.state files.new) result }
    ensures frame { KeepsFiles (F.state files.old) (F.state files.new) }
{
    let Input { job, graph, .. } = match read_input(alloc, files, file, JobVerb::Cut) {
        Ok(input) => input,
        Err(why) => return why.into(),
    };
    let Some(prefix) = &job.atoms_at else {
        unreachable!()
    };
    match write_cut(alloc, files, prefix.as_str(), &graph, job.atoms) {
        Ok(()) => Status::Done,
        Err(why) => why.into(),
    }
}

/// Reads the job and its graph, and makes the job's store.
fn init_job<F: Files>(alloc: Global, files: &mut F, file: &str) -> Status
    ensures init { IsInit F.disks_observable file.now (F.state files.old)
        (F.state files.new) result }
    ensures frame { KeepsFiles (F.state files.old) (F.state files.new) }
{
    let Input { job, graph, .. } = match read_input(alloc, files, file, JobVerb::Init) {
        Ok(input) => input,
        Err(why) => return why.into(),
    };
    let Some(name) = &job.store else {
        unreachable!()
    };
    match make_store(files, name.as_str(), &header_of(&job, &graph)) {
        Ok(()) => Status::Done,
        Err(why) => why.into(),
    }
}
