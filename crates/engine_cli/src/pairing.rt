//! Runs pairs on a job's graph, on the job's machines.
ghost use Rattle.std.specs.Prelude.{◌≡◌, ℕ, ◌<◌, false, [], length, None, All, IfOk};
ghost use Rattle.full_cluster.specs.Owners.{owner_in};
ghost use Rattle.gl_base.specs.declared.jobs.Algorithm.TheVariants.{Pairs as OfPairs};
ghost use Rattle.graph_atoms.specs.atom_gather.Cuts.{CanBeCut};
ghost use Rattle.graph_core.specs.DataGraph.{IsDataGraph};
ghost use Rattle.job_io.specs.job_config.Ranges.{HasNumbers};
ghost use Rattle.job_io.specs.job_config.Views.{job_view};
ghost use Rattle.placement.specs.graphs.Placed.{placed_owner};
ghost use Rattle.engine_cli.specs.Ends.{IsEndAlone, left_at};
ghost use Rattle.engine_cli.specs.Inner.Prepares.{IsPrintable};
ghost use Rattle.engine_cli.specs.Pairings.{RunsOfPairs};

use crate::playing::plan_of;
use engine_runs::answers::{StoredEnd, StoredRun};
use full_cluster::{Division, FullTerms};
use full_runs::{FullEnd, counts_by_machine, run_full};
use gl_base::{Job, MachineNo, NoMemory, Vertex};
use gl_outside::Gate;
use graph_atoms::atom_gather::Cut;
use graph_core::Graph;
use placement::graphs::Placement;
use placement::plans::placement_of;
use prog_match::Pairs;
use std::alloc::Global;
use std::sync::Wait;

/// Matches the vertices of the graph in pairs, on the job's machines. It is cut so and placed, and
/// each update is its vertex's machine's. The job has no store and orders no failure. As each update
/// begins, the gate is passed.
pub fn run_pairs<R: Wait, G: Gate>(
    rt: &R,
    alloc: Global,
    graph: &Graph,
    cut: &Cut,
    job: &Job,
    gate: &G,
) -> Result<StoredRun, NoMemory>
    requires graph { IsDataGraph graph.now }
    requires undirected { graph.now.directed ≡ false }
    requires cut { CanBeCut graph.now cut.now }
    requires numbers { HasNumbers (job_view job.now).fields }
    requires pairs { job.now.algorithm ≡ OfPairs }
    requires failures { job.now.failures.items ≡ [] }
    ensures run { IfOk result (RunsOfPairs (job_view job.now) graph.now cut.now) }
    ensures printable { IfOk result (IsPrintable graph.now) }
{
    let placed = placement_of(alloc, graph, cut, plan_of(job))?;
    let owner = owners_of(alloc, &placed)?;
    let Some(division) = Division::new(graph, &owner) else {
        unreachable!();
    };
    let terms = terms_of(job);
    let FullEnd {
        order,
        values,
        left,
        ..
    } = run_full(rt, alloc, &division, terms, &Pairs, gate, job.budget)?;
    let done = counts_by_machine(alloc, job.machines, &order)?;
    Ok(StoredRun {
        order,
        lost: Vec::new(alloc),
        done,
        fired: Vec::new(alloc),
        snapshots: Vec::new(alloc),
        numbers: values,
        end: end_of(left),
    })
}

/// How many machines the job has, and how many scopes of each may be in flight.
fn terms_of(job: &Job) -> FullTerms
    ensures { result ≡ record {
      machines = job.now.machines;
      pipeline = job.now.pipeline;
    } }
{
    FullTerms {
        machines: job.machines,
        pipeline: u64::from(job.pipeline),
    }
}

/// The machine of each vertex: that of its atom.
fn owners_of(alloc: Global, placed: &Placement) -> Result<Vec<MachineNo>, NoMemory>
    requires { All (λ a. a.0 < length placed.now.owner.items) placed.now.of.items }
    ensures count { IfOk result (λ owner. length owner.items ≡ length placed.now.of.items) }
    ensures each { IfOk result (λ owner. (v : ℕ) → v < length placed.now.of.items →
        owner_in owner.items v ≡ placed_owner placed.now.of.items placed.now.owner.items v) }
{
    let mut owner = Vec::with_capacity(alloc, placed.of.len())?;
    for atom in &placed.of {
        owner.push(placed.owner[atom.0 as usize])?;
    }
    Ok(owner)
}

/// How a run ended that left this task, if any.
fn end_of(left: Option<Vertex>) -> StoredEnd
    ensures left { left_at result ≡ left }
    ensures alone { IsEndAlone result }
{
    match left {
        None => StoredEnd::Finished,
        Some(vertex) => StoredEnd::Spent(vertex),
    }
}
