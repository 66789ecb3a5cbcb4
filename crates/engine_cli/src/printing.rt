//! Prints what a run left: its order, where the job names a file for it, and the answer.
ghost use Rattle.std.specs.Prelude.{◌≡◌, length, All, Err, IfOk};
ghost use Rattle.graph_core.specs.DataGraph.{size};
ghost use Rattle.graph_text.specs.declared.generate.making.Writing.TheVariants.{NoMemory as NoMemoryAtOut};
ghost use Rattle.job_io.specs.job_config.Views.{job_view};
ghost use Rattle.graph_text.specs.order_text.Orders.{IsEntryOf};
ghost use Rattle.engine_cli.specs.Answer.{report_of};
ghost use Rattle.job_io.specs.whole_files.FilesUsed.{WritesFiles};
ghost use Rattle.engine_cli.specs.NamesWritten.{order_names};
ghost use Rattle.engine_cli.specs.Frame.{KeepsSink};
ghost use Rattle.engine_cli.specs.Inner.Printing.{Prints, printed_of};
ghost use Rattle.engine_cli.specs.StatusMeanings.{moment};

use crate::running::Prepared;
use gl_base::NoMemory;
use gl_outside::{Files, Sink, write_all};
use graph_core::Graph;
use graph_text::generate::Writing;
use graph_text::order_text::{answer, order_bytes, report};
use graph_text::sync_folds::Fold;
use job_io::whole_files::write_file;
use std::alloc::Global;

/// Writes the order of a run to the file that the job names for it, and then prints a line for each
/// vertex: its identifier and the number at its place. The report of the answer is handed back. All
/// memory is taken before anything is written, so that want of it leaves files and `out` as they
/// were.
pub fn print_run<F: Files, K: Sink>(
    alloc: Global,
    files: &mut F,
    out: &mut K,
    prepared: &Prepared,
    is_reported: bool,
) -> Result<Vec<u8>, Writing>
    requires numbers { length prepared.now.run.numbers.items ≡ size prepared.now.graph }
    requires entries { All (IsEntryOf prepared.now.graph) prepared.now.run.order.items }
    ensures printed { Prints result (job_view prepared.now.job).fields.order
        (printed_of is_reported prepared.now)
        (moment (F.state files.old) (K.faults out.old) (K.held out.old))
        (moment (F.state files.new) (K.faults out.new) (K.held out.new)) }
    ensures no_memory { result ≡ Err NoMemoryAtOut → (out.new ≡ out.old) ×
        ((F.state files.new).contents ≡ (F.state files.old).contents) }
    ensures wrote { WritesFiles (order_names (job_view prepared.now.job).fields.order)
        (F.state files.old) (F.state files.new) }
    ensures frame { KeepsSink K.same K.faults out.old out.new }
{
    let Prepared { job, graph, run } = prepared;
    let text = answer(alloc, graph, &run.numbers, job.algorithm)?;
    let report = report_of(alloc, graph, &run.numbers, &text, is_reported)?;
    if let Some(name) = &job.order {
        let lines = order_bytes(alloc, graph, &run.order)?;
        write_file(files, name.as_str(), &lines)?;
    }
    write_all(out, &text)?;
    Ok(report)
}

/// The report of the answer, where it is asked for.
fn report_of(
    alloc: Global,
    graph: &Graph,
    numbers: &[u64],
    text: &[u8],
    is_reported: bool,
) -> Result<Vec<u8>, NoMemory>
    ensures { IfOk result (λ report.
        report.items ≡ report_of is_reported graph.now numbers.now text.now) }
{
    if !is_reported {
        return Ok(Vec::new(alloc));
    }
    report(alloc, graph, &Fold::of(numbers), text)
}
