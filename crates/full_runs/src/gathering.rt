//! What the machines of a cluster made is put together.
ghost use Rattle.std.specs.Prelude.{◌≡◌, ℕ, ◌<◌, length, IfOk};
ghost use Rattle.graph_core.specs.DataGraph.{size};
ghost use Rattle.seq_run.specs.Runs.{AreNumbers};
ghost use Rattle.cluster_laws.specs.cluster_core.Copies.{from_owner};
ghost use Rattle.cluster_laws.specs.cluster_core.Replays.{ticket_of};
ghost use Rattle.cluster_laws.specs.cluster_core.Settings.{Setting};
ghost use Rattle.cluster_laws.specs.merged_logs.Merges.{IsMerge};
ghost use Rattle.full_scope.specs.FullUpdates.{FullUpdate};
ghost use Rattle.full_laws.specs.FullReplays.{all_logs};
ghost use Rattle.full_laws.specs.FullWorlds.{FullWorld};
ghost use Rattle.full_laws.specs.Items.{AnEdge, AVertex};
ghost use Rattle.task_sets.specs.vertex_queue.Flags.{is_flagged};
ghost use Rattle.full_cluster.specs.FullClusters.{IsClusterOf};
ghost use Rattle.full_cluster.specs.Given.{IsDividedAs};
ghost use Rattle.full_cluster.specs.Owners.{owner_in};
ghost use Rattle.full_runs.specs.Inner.Driving.{IsGivenFor};
ghost use Rattle.full_runs.specs.Inner.SoFar.{AreSoFar};

use crate::so_far::SoFar;
use crate::tasks::add_if;
use full_cluster::{Division, FullCluster};
use gl_base::{EdgeNo, Entry, MachineNo, NoMemory, Vertex};
use std::alloc::Global;
use task_sets::vertex_queue::VertexQueue;

/// The run that so many machines made, once all that was given has come: their updates by ticket,
/// and the numbers and tasks that the owners have.
pub(crate) fn gather(
    alloc: Global,
    division: &Division<'_>,
    machines: u16,
    cluster: &FullCluster,
) -> Result<SoFar, NoMemory>
    ensures so_far { (p : FullUpdate) → IsGivenFor division.now machines p cluster.now →
        IfOk result (λ run. AreSoFar division.now.graph.now p (owner_in division.now.owner.now)
        run.order.items run.values.items run.edges.items run.tasks) }
    ensures drawn { (p : FullUpdate) → IsGivenFor division.now machines p cluster.now →
        IfOk result (λ run. length run.order.items ≡ cluster.now.next) }
{
    let order = merged_logs(alloc, cluster, machines)?;
    let values = vertex_numbers(alloc, division, cluster)?;
    let edges = edge_numbers(alloc, division, cluster)?;
    let tasks = own_tasks(alloc, division, cluster)?;
    Ok(SoFar {
        order,
        values,
        edges,
        tasks,
    })
}

/// The updates of so many machines, by ticket.
fn merged_logs(alloc: Global, cluster: &FullCluster, machines: u16) -> Result<Vec<Entry>, NoMemory>
    ensures { (st : Setting) (p : FullUpdate) (w : FullWorld) → IsClusterOf st p w cluster.now →
        st.machines ≡ machines → IfOk result (λ merged. IsMerge (all_logs st w) merged.items) }
{
    let mut merged = all_logs(alloc, cluster, machines)?;
    merged.sort_unstable_by_key(|entry| ticket(*entry));
    Ok(merged)
}

/// The logs of so many machines, one behind the other.
fn all_logs(alloc: Global, cluster: &FullCluster, machines: u16) -> Result<Vec<Entry>, NoMemory>
    ensures { (st : Setting) (p : FullUpdate) (w : FullWorld) → IsClusterOf st p w cluster.now →
        st.machines ≡ machines → IfOk result (λ all. all.items ≡ all_logs st w) }
{
    let mut all = Vec::new(alloc);
    for a in 0..machines {
        all.extend_from_slice(log_of(cluster, MachineNo(a)))?;
    }
    Ok(all)
}

/// The updates that a machine made.
fn log_of(cluster: &FullCluster, a: MachineNo) -> &[Entry]
    ensures { (st : Setting) (p : FullUpdate) (w : FullWorld) → IsClusterOf st p w cluster.now →
        a.0 < st.machines → result.now ≡ (w.part a.0).log }
{
    match cluster.machine(a) {
        Some(machine) => machine.log(),
        None => &[],
    }
}

/// The ticket of an entry.
fn ticket(entry: Entry) -> u64
    ensures { result ≡ ticket_of entry }
{
    match entry {
        Entry::Go { ticket, .. } | Entry::Restart { ticket } => ticket,
    }
}

/// The number of each vertex, as its owner has it.
fn vertex_numbers(
    alloc: Global,
    division: &Division<'_>,
    cluster: &FullCluster,
) -> Result<Vec<u64>, NoMemory>
    ensures { (st : Setting) (p : FullUpdate) (w : FullWorld) → IsDividedAs st division.now →
        IsClusterOf st p w cluster.now → IfOk result (λ all.
        AreNumbers (size st.graph) (λ v. (w.part (st.owner v)).number (AVertex v)) all.items) }
{
    let mut all = Vec::with_capacity(alloc, division.graph.n() as usize)?;
    for v in 0..division.graph.n() {
        all.push(number_of(division, cluster, Vertex(v)))?;
    }
    Ok(all)
}

/// The number of a vertex, as its owner has it.
fn number_of(division: &Division<'_>, cluster: &FullCluster, v: Vertex) -> u64
    requires { v.0 < size division.now.graph.now }
    ensures { (st : Setting) (p : FullUpdate) (w : FullWorld) → IsDividedAs st division.now →
        IsClusterOf st p w cluster.now →
        result ≡ (w.part (st.owner v.0)).number (AVertex v.0) }
{
    match cluster.machine(division.owner_of(v)) {
        Some(machine) => machine.number(v).unwrap_or(0),
        None => 0,
    }
}

/// The number of each edge, as the owner of its first end has it.
fn edge_numbers(
    alloc: Global,
    division: &Division<'_>,
    cluster: &FullCluster,
) -> Result<Vec<u64>, NoMemory>
    ensures { (st : Setting) (p : FullUpdate) (w : FullWorld) → IsDividedAs st division.now →
        IsClusterOf st p w cluster.now → IfOk result (λ all. AreNumbers (length st.graph.edges) (λ e.
        (w.part (from_owner st e)).number (AnEdge e)) all.items) }
{
    let mut all = Vec::with_capacity(alloc, division.graph.m() as usize)?;
    for e in 0..division.graph.m() {
        all.push(edge_of(division, cluster, EdgeNo(e)))?;
    }
    Ok(all)
}

/// The number of an edge, as the owner of its first end has it.
fn edge_of(division: &Division<'_>, cluster: &FullCluster, e: EdgeNo) -> u64
    requires { e.0 < length division.now.graph.now.edges }
    ensures { (st : Setting) (p : FullUpdate) (w : FullWorld) → IsDividedAs st division.now →
        IsClusterOf st p w cluster.now →
        result ≡ (w.part (from_owner st e.0)).number (AnEdge e.0) }
{
    let ends = division.graph.ends(e);
    match cluster.machine(division.owner_of(ends.0)) {
        Some(machine) => machine.edge(e).unwrap_or(0),
        None => 0,
    }
}

/// The vertices that are tasks of their owners.
fn own_tasks(
    alloc: Global,
    division: &Division<'_>,
    cluster: &FullCluster,
) -> Result<VertexQueue, NoMemory>
    ensures count { IfOk result (λ tasks. length tasks ≡ size division.now.graph.now) }
    ensures each { (st : Setting) (p : FullUpdate) (w : FullWorld) → IsDividedAs st division.now →
        IsClusterOf st p w cluster.now → IfOk result (λ tasks. (u : ℕ) → u < size st.graph →
        is_flagged tasks u ≡ (w.part (st.owner u)).task u) }
{
    let mut tasks = VertexQueue::none(alloc, division.graph.n())?;
    for v in 0..division.graph.n() {
        let is_own = is_own_task(division, cluster, Vertex(v));
        add_if(&mut tasks, Vertex(v), is_own);
    }
    Ok(tasks)
}

/// Whether the vertex is a task of its owner.
fn is_own_task(division: &Division<'_>, cluster: &FullCluster, v: Vertex) -> bool
    requires { v.0 < size division.now.graph.now }
    ensures { (st : Setting) (p : FullUpdate) (w : FullWorld) → IsDividedAs st division.now →
        IsClusterOf st p w cluster.now → result ≡ (w.part (st.owner v.0)).task v.0 }
{
    match cluster.machine(division.owner_of(v)) {
        Some(machine) => machine.is_task(v),
        None => false,
    }
}
