//! Runs the job's algorithm on its graph without a store, through the failures that the job orders.
ghost use Rattle.std.specs.Prelude.{◌≤◌, IfOk, length};
ghost use Rattle.graph_atoms.specs.atom_gather.Cuts.{CanBeCut};
ghost use Rattle.graph_core.specs.DataGraph.{IsDataGraph};
ghost use Rattle.job_io.specs.job_config.Ranges.{HasNumbers};
ghost use Rattle.job_io.specs.job_config.Views.{job_view};
ghost use Rattle.job_io.specs.job_files.JobTexts.{HasStart};
ghost use Rattle.call_laws.specs.whole_calls.Following.{AreJobFailures};
ghost use Rattle.engine_cli.specs.JobRuns.{HasNamedMachines, IsEndAlone, RunsWithoutStore};
ghost use Rattle.engine_cli.specs.Inner.Prepares.{IsPrintable};
ghost use Rattle.engine_cli.specs.Plays.{RunsByScopes};

use crate::playing::{plan_of, program_of};
use engine_runs::answers::{StoredRun, UnstoredInput};
use engine_runs::run_unstored;
use gl_base::{Job, NoMemory};
use gl_outside::Gate;
use graph_atoms::atom_gather::Cut;
use graph_core::Graph;
use graph_programs::gated::Gated;
use std::alloc::Global;
use std::sync::Wait;
use std::thread::Threads;

/// Runs the job's algorithm on the graph, which is cut so, without a store. Its updates pass the
/// gate. A machine that fails takes all back to the start.
pub fn run_without_store<R: Threads + Wait + Sync, G: Gate + Sync>(
    rt: &R,
    alloc: Global,
    graph: &Graph,
    cut: &Cut,
    job: &Job,
    gate: &G,
) -> Result<StoredRun, NoMemory>
    requires graph { IsDataGraph graph.now }
    requires cut { CanBeCut graph.now cut.now }
    requires start { HasStart job.now.algorithm job.now.source graph.now }
    requires edges_fit { RunsByScopes job.now.algorithm graph.now }
    requires numbers { HasNumbers (job_view job.now).fields }
    requires failures { AreJobFailures job.now.machines job.now.failures.items }
    requires few { length job.now.failures.items ≤ 64 }
    ensures run { IfOk result (λ run.
        RunsWithoutStore (job_view job.now) graph.now cut.now run job.now.failures.items) }
    ensures machines { IfOk result (HasNamedMachines (job_view job.now) graph.now cut.now) }
    ensures ended { IfOk result (λ run. IsEndAlone run.end) }
    ensures printable { IfOk result (IsPrintable graph.now) }
{
    let program = program_of(job);
    let plan = plan_of(job);
    let input = UnstoredInput {
        graph,
        cut,
        failures: &job.failures,
        plan,
        engine: job.engine,
    };
    run_unstored(rt, alloc, &input, Gated { program, gate })
}
