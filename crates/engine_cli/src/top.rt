//! The top call.
ghost use Rattle.std.specs.Prelude.{◌≡◌, ◌⊎◌, ◌<◌, [], false, length, Err};
ghost use Rattle.gl_base.specs.declared.usage_faults.UsageFault.{UsageFault};
ghost use Rattle.job_io.specs.job_words.CommandLine.{IsCommandLine, command_line_of};
ghost use Rattle.job_io.specs.job_words.WordForms.{texts};
ghost use Rattle.job_io.specs.declared.job_words.words.Words.{Words};
ghost use Rattle.engine_cli.specs.declared.status.Status.TheVariants.{Done, Usage, NoMemory};
ghost use Rattle.engine_cli.specs.Status.{IsBeforeWriting, IsRefusal};
ghost use Rattle.engine_cli.specs.Frame.{KeepsFiles, KeepsSink};
ghost use Rattle.engine_cli.specs.Made.{IsAsked, IsOfFiles};
ghost use Rattle.engine_cli.specs.Notes.{WritesNote, note_of};
ghost use Rattle.engine_cli.specs.StatusMeanings.{moment};
ghost use Rattle.engine_cli.specs.Inner.Prepares.{IsOfRun};
ghost use Rattle.engine_cli.specs.JobRuns.{lists_of_call, no_lists};
ghost use Rattle.engine_cli.specs.Verbs.{IsCall, IsQuiet, IsRun};

use crate::file_verbs::files_only;
use crate::notes::refuse;
use crate::running::{RunAsked, RunEnd, no_run, run_job};
use crate::{Ended, Status};
use gl_outside::{Files, Gate, Sink, write_all};
use job_io::job_files::JobVerb;
use job_io::job_words::{Words, WordsReading, read_words};
use std::alloc::Global;
use std::sync::Wait;
use std::thread::Threads;

/// Does what the words after the program's name ask.
///
/// `run JOB` reads the job in the file JOB and the graph that it names, runs the job's algorithm on it, on as many machines as the
/// job has, and prints to `out`, for each vertex by ascending identifier, its identifier and its
/// number: its level from the job's source, the least identifier in its component, its distance
/// from the source, or a colour. Where the job names a file for the order of the updates, that is
/// written before `out`. With `--report` the report goes to `note`. `make PREFIX ..` writes a graph
/// to the files PREFIX.v and PREFIX.e. `cut JOB` cuts the job's graph into atoms and writes the
/// index and the atoms at the job's prefix for them; where `run`'s job has such a prefix, the files
/// there are looked at before the run. `init JOB` makes the job's store, a file without snapshots.
/// Where `run`'s job names a store, that is to have no snapshots; the run puts snapshots into it as
/// it goes on, and where a machine fails that the job lets fail, all machines go back to the last
/// one. `resume JOB` does the same as `run`, and goes on from the last snapshot that the store has.
///
/// The words are refused first, then the job's file, what it says, a key that the verb needs, the
/// vertex file, the edge file, a source that is no vertex, the index and the atoms, the store, and
/// a run that left a task; then the order's file and `out` are written, and last one line to `note`
/// for every status but `Done`. A fault of `note` is passed over.
///
/// Each update passes `gate` once as it begins, by the identifier of its vertex. No clause says so.
///
/// The lists tell of the run where one was made: at `Done`, `WriteFault`, `BudgetSpent`,
/// `SnapshotsFull`, and at `DiskFault` where that came in the run. Else they are empty. A run on
/// several machines goes on until its end is seen, and no clause says that it is.
pub fn engine<R: Threads + Wait + Sync, F: Files, K: Sink, N: Sink, G: Gate + Sync>(
    rt: &R,
    alloc: Global,
    words: &[String],
    files: &mut F,
    out: &mut K,
    note: &mut N,
    gate: &G,
) -> Ended
    requires { length words.now < 4294967295 }

    // What the verb leaves, by each status.
    ensures verb { (asked : Words) → IsCommandLine (texts words.now) asked →
        IsCall F.disks_observable asked
        (moment (F.state files.old) (K.faults out.old) (K.held out.old))
        (moment (F.state files.new) (K.faults out.new) (K.held out.new))
        (λ report. WritesNote report (N.held note.old) (N.held note.new) (N.faults note.old)
        (N.faults note.new)) result }
    ensures files_only { (asked : Words) → IsCommandLine (texts words.now) asked →
        IsOfFiles asked → out.new ≡ out.old }

    // Other words.
    ensures usage { (fault : UsageFault) → command_line_of (texts words.now) ≡ Err fault →
        ((result.status ≡ Usage fault) ⊎ (result.status ≡ NoMemory)) ×
        (files.new ≡ files.old) × (out.new ≡ out.old)
        × (lists_of_call result ≡ no_lists) }

    // What is told of a refusal, and of work that has nothing to tell.
    ensures note { IsRefusal result.status →
        WritesNote (note_of result.status) (N.held note.old) (N.held note.new)
        (N.faults note.old) (N.faults note.new) }
    ensures quiet { (asked : Words) → IsCommandLine (texts words.now) asked → IsQuiet asked →
        result.status ≡ Done → note.new ≡ note.old }

    // What stays.
    ensures untouched { IsBeforeWriting result.status → out.new ≡ out.old }
    ensures frame { KeepsFiles (F.state files.old) (F.state files.new) ×
        KeepsSink K.same K.faults out.old out.new ×
        KeepsSink N.same N.faults note.old note.new }
{
    match read_words(alloc, words) {
        Ok(asked) => do_command(rt, alloc, &asked, files, out, note, gate),
        Err(WordsReading::Fault(fault)) => no_run(alloc, refuse(note, Status::Usage(fault))),
        Err(WordsReading::NoMemory) => no_run(alloc, refuse(note, Status::NoMemory)),
    }
}

/// Does what the command line asks.
fn do_command<R: Threads + Wait + Sync, F: Files, K: Sink, N: Sink, G: Gate + Sync>(
    rt: &R,
    alloc: Global,
    asked: &Words,
    files: &mut F,
    out: &mut K,
    note: &mut N,
    gate: &G,
) -> Ended
    requires { IsAsked asked.now }
    ensures verb { IsCall F.disks_observable asked.now
        (moment (F.state files.old) (K.faults out.old) (K.held out.old))
        (moment (F.state files.new) (K.faults out.new) (K.held out.new))
        (λ report. WritesNote report (N.held note.old) (N.held note.new) (N.faults note.old)
        (N.faults note.new)) result }
    ensures files_only { IsOfFiles asked.now → out.new ≡ out.old }
    ensures note { IsRefusal result.status →
        WritesNote (note_of result.status) (N.held note.old) (N.held note.new)
        (N.faults note.old) (N.faults note.new) }
    ensures quiet { IsQuiet asked.now → result.status ≡ Done → note.new ≡ note.old }
    ensures untouched { IsBeforeWriting result.status → out.new ≡ out.old }
    ensures frame { KeepsFiles (F.state files.old) (F.state files.new) ×
        KeepsSink K.same K.faults out.old out.new ×
        KeepsSink N.same N.faults note.old note.new }
{
    match asked {
        Words::Run { file, report } => {
            let asked = RunAsked {
                verb: JobVerb::Run,
                file: file.as_str(),
                is_reported: *report,
            };
            run_file(rt, alloc, &asked, files, out, note, gate)
        }
        Words::Resume { file, report } => {
            let asked = RunAsked {
                verb: JobVerb::Resume,
                file: file.as_str(),
                is_reported: *report,
            };
            run_file(rt, alloc, &asked, files, out, note, gate)
        }
        Words::Make { .. } => no_run(alloc, files_only(alloc, asked, files, out, note)),
        Words::Cut { .. } => no_run(alloc, files_only(alloc, asked, files, out, note)),
        Words::Init { .. } => no_run(alloc, files_only(alloc, asked, files, out, note)),
    }
}

/// Runs the job in a file, and tells what is reported of it or why it was refused.
fn run_file<R: Threads + Wait + Sync, F: Files, K: Sink, N: Sink, G: Gate + Sync>(
    rt: &R,
    alloc: Global,
    asked: &RunAsked<'_>,
    files: &mut F,
    out: &mut K,
    note: &mut N,
    gate: &G,
) -> Ended
    requires { IsOfRun asked.now.verb }
    ensures run { IsRun F.disks_observable asked.now.verb asked.now.file.now asked.now.is_reported
        (moment (F.state files.old) (K.faults out.old) (K.held out.old))
        (moment (F.state files.new) (K.faults out.new) (K.held out.new))
        (λ report. WritesNote report (N.held note.old) (N.held note.new) (N.faults note.old)
        (N.faults note.new)) (lists_of_call result) result.status }
    ensures note { IsRefusal result.status →
        WritesNote (note_of result.status) (N.held note.old) (N.held note.new)
        (N.faults note.old) (N.faults note.new) }
    ensures quiet { asked.now.is_reported ≡ false → result.status ≡ Done → note.new ≡ note.old }
    ensures untouched { IsBeforeWriting result.status → out.new ≡ out.old }
    ensures frame { KeepsFiles (F.state files.old) (F.state files.new) ×
        KeepsSink K.same K.faults out.old out.new ×
        KeepsSink N.same N.faults note.old note.new }
{
    let RunEnd { ended, report } = run_job(rt, alloc, asked, files, out, gate);
    let Ended {
        status,
        order,
        lost,
        done,
        fired,
        snapshots,
    } = ended;
    let status = match status {
        Status::Done => tell_report(note, &report),
        status => refuse(note, status),
    };
    Ended {
        status,
        order,
        lost,
        done,
        fired,
        snapshots,
    }
}

/// Writes what is reported of an answer that was printed. A fault of `note` is passed over.
fn tell_report<N: Sink>(note: &mut N, report: &[u8]) -> Status
    ensures status { result ≡ Done }
    ensures note { WritesNote report.now (N.held note.old) (N.held note.new)
        (N.faults note.old) (N.faults note.new) }
    ensures quiet { report.now ≡ [] → note.new ≡ note.old }
    ensures frame { KeepsSink N.same N.faults note.old note.new }
{
    if !report.is_empty() {
        let _ = write_all(note, report);
    }
    Status::Done
}
