//! Whole runs.
ghost use Rattle.std.specs.Prelude.{◌≡◌, ◌<◌, ◌≤◌, length, All, IfOk};
ghost use Rattle.full_cluster.specs.Owners.{owner_in};
ghost use Rattle.full_runs.specs.FullEnds.{RunsFullyTo};
ghost use Rattle.full_runs.specs.Inner.SoFar.{AreSoFar};

use crate::driving::drive;
use crate::gathering::gather;
use crate::so_far::SoFar;
use full_cluster::{Division, FullCluster, FullTerms};
use full_scope::FullProgram;
use gl_base::{Entry, NoMemory, Vertex};
use gl_outside::Gate;
use std::alloc::Global;
use std::sync::Wait;

/// What a run leaves: the order of its updates, the numbers of the vertices and of the edges, and a
/// task that is left, if there is one.
#[derive(Drop)]
pub struct FullEnd {
    pub order: Vec<Entry>,
    pub values: Vec<u64>,
    pub edges: Vec<u64>,
    pub left: Option<Vertex>,
}

/// Runs a program until no task is left, but makes no more than `budget` updates: on the machines of
/// the division, where there is more than one, and one after another on one. The gate is passed as
/// each update begins. What the machines leave, if anything, is updated one after another; that they
/// leave nothing while the budget lasts isn't proved.
pub fn run_full<R: Wait, P: FullProgram, G: Gate>(
    rt: &R,
    alloc: Global,
    division: &Division<'_>,
    terms: FullTerms,
    program: &P,
    gate: &G,
    budget: u64,
) -> Result<FullEnd, NoMemory>
    requires low { All (λ m. m.0 < terms.machines) division.now.owner.now }
    ensures { IfOk result (λ end.
        RunsFullyTo division.now.graph.now (P.meaning program.now)
        (owner_in division.now.owner.now) budget
        end.order.items end.values.items end.edges.items end.left) }
{
    let run = run_machines(rt, alloc, division, terms, program, gate, budget)?;
    run.finish(alloc, division, program, gate, budget)
}

/// What the machines of the division make of a run, where there is more than one; else a run before
/// its first update.
fn run_machines<R: Wait, P: FullProgram, G: Gate>(
    rt: &R,
    alloc: Global,
    division: &Division<'_>,
    terms: FullTerms,
    program: &P,
    gate: &G,
    budget: u64,
) -> Result<SoFar, NoMemory>
    requires low { All (λ m. m.0 < terms.machines) division.now.owner.now }
    ensures so_far { IfOk result (λ run. AreSoFar division.now.graph.now
        (P.meaning program.now) (owner_in division.now.owner.now)
        run.order.items run.values.items run.edges.items run.tasks) }
    ensures few { IfOk result (λ run. length run.order.items ≤ budget) }
{
    if terms.machines < 2 {
        return SoFar::new(alloc, division.graph, program);
    }
    let mut cluster = FullCluster::new(alloc, division, terms, program, budget)?;
    drive(rt, alloc, division, terms, program, gate, &mut cluster)?;
    gather(alloc, division, terms.machines, &cluster)
}
