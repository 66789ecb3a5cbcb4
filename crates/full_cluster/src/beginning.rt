//! A cluster begins.
ghost use Rattle.std.specs.Prelude.{◌≡◌, ℕ, ◌<◌, [], length, All, IfOk};
ghost use Rattle.graph_core.specs.DataGraph.{size};
ghost use Rattle.seq_run.specs.Runs.{AreNumbers};
ghost use Rattle.seq_run.specs.States.{GraphState};
ghost use Rattle.cluster_laws.specs.cluster_core.Settings.{Setting};
ghost use Rattle.full_scope.specs.FullStates.{full_start};
ghost use Rattle.full_cluster.specs.FullClusters.{IsClusterFor, IsClusterOf, IsFullSeat, IsLinkOf, IsSettingOf};
ghost use Rattle.full_cluster.specs.FullStarts.{part_at_start, world_at_start, AreOwnTasks, AreSeatsAtStart};
ghost use Rattle.full_cluster.specs.Given.{HasNumbers, IsDividedAs};
ghost use Rattle.full_cluster.specs.Owners.{owner_in};

use crate::{
    Division, FullCluster, FullMachine, FullQueues, FullTerms, KeptNumbers, ScopeMap, WholeLocks,
};
use full_scope::FullProgram;
use gl_base::{MachineNo, NoMemory, Vertex};
use graph_core::Graph;
use std::alloc::Global;

impl FullCluster {
    /// The machines of a division before the first update: every vertex is a task of its owner. No
    /// more than `budget` updates are made.
    pub fn new<P: FullProgram>(
        alloc: Global,
        division: &Division<'_>,
        terms: FullTerms,
        program: &P,
        budget: u64,
    ) -> Result<FullCluster, NoMemory>
        requires low { All (λ m. m.0 < terms.machines) division.now.owner.now }
        ensures cluster { IfOk result
            (IsClusterFor division.now terms (P.meaning program.now)) }
        ensures starts { (st : Setting) → IsSettingOf st division.now terms →
            let p = P.meaning program.now in
            IfOk result (IsClusterOf st p (world_at_start st p budget)) }
    {
        let values = start_values(alloc, division.graph, program)?;
        let machines = first_machines(alloc, division, &values, terms.machines)?;
        let links = first_links(alloc, terms.machines)?;
        Ok(FullCluster {
            machines,
            links,
            next: 0,
            left: budget,
        })
    }
}

/// So many machines before the first update, with these numbers of all vertices.
fn first_machines(
    alloc: Global,
    division: &Division<'_>,
    values: &[u64],
    machines: u16,
) -> Result<Vec<FullMachine>, NoMemory>
    ensures count { IfOk result (λ all. length all.items ≡ machines) }
    ensures seats { (st : Setting) (s : GraphState) → IsDividedAs st division.now →
        st.machines ≡ machines → AreNumbers (size st.graph) s.vertex values.now →
        ((e : ℕ) → s.edge e ≡ 0) → IfOk result (λ all. AreSeatsAtStart st s all.items) }
{
    let mut all = Vec::with_capacity(alloc, machines as usize)?;
    for a in 0..machines {
        let machine = FullMachine::new(alloc, division, values, MachineNo(a), machines)?;
        all.push_reserved(machine);
    }
    Ok(all)
}

/// The links between so many machines, without a message.
fn first_links(alloc: Global, machines: u16) -> Result<Vec<FullQueues>, NoMemory>
    ensures count { IfOk result (λ all. length all.items ≡ machines) }
    ensures none { (st : Setting) → st.machines ≡ machines →
        IfOk result (λ all. All (λ links. IsLinkOf st links (λ q. [])) all.items) }
{
    let mut all = Vec::with_capacity(alloc, machines as usize)?;
    for _ in 0..machines {
        let links = FullQueues::none(alloc, machines)?;
        all.push_reserved(links);
    }
    Ok(all)
}

impl FullMachine {
    /// A machine of so many before its first update, with these numbers of all vertices: every
    /// vertex that it owns is a task.
    pub fn new(
        alloc: Global,
        division: &Division<'_>,
        values: &[u64],
        me: MachineNo,
        machines: u16,
    ) -> Result<FullMachine, NoMemory>
        ensures { (st : Setting) (s : GraphState) → IsDividedAs st division.now →
            st.machines ≡ machines → AreNumbers (size st.graph) s.vertex values.now →
            ((e : ℕ) → s.edge e ≡ 0) →
            IfOk result (λ m. IsFullSeat st me.0 m (part_at_start st s me.0)) }
    {
        let kept = KeptNumbers::new(alloc, division, values, me)?;
        let locks = WholeLocks::free(alloc, division.graph.n() as usize)?;
        let out = FullQueues::none(alloc, machines)?;
        Ok(FullMachine {
            me,
            kept,
            locks,
            log: Vec::new(alloc),
            serial: 0,
            flying: 0,
            flights: ScopeMap::new(alloc),
            stands: ScopeMap::new(alloc),
            ready: ScopeMap::new(alloc),
            out,
        })
    }
}

impl KeptNumbers {
    /// These numbers of all vertices, and 0 for each edge: every vertex that the machine owns is a
    /// task.
    pub fn new(
        alloc: Global,
        division: &Division<'_>,
        values: &[u64],
        me: MachineNo,
    ) -> Result<KeptNumbers, NoMemory>
        ensures { (st : Setting) (s : GraphState) → IsDividedAs st division.now →
            AreNumbers (size st.graph) s.vertex values.now → ((e : ℕ) → s.edge e ≡ 0) →
            IfOk result (λ kept. HasNumbers st me.0 kept (part_at_start st s me.0)) }
    {
        let tasks = own_tasks(alloc, division, me)?;
        let edges = Vec::from_elem(alloc, 0, division.graph.m() as usize)?;
        let numbers = Vec::from_slice(alloc, values)?;
        Ok(KeptNumbers {
            numbers,
            edges,
            tasks,
        })
    }
}

/// Marks for all vertices: each that the machine owns is marked.
fn own_tasks(alloc: Global, division: &Division<'_>, me: MachineNo) -> Result<Vec<bool>, NoMemory>
    ensures { IfOk result (λ tasks. AreOwnTasks
        (owner_in division.now.owner.now) me.0 (size division.now.graph.now) tasks.items) }
{
    let n = division.graph.n();
    let mut tasks = Vec::with_capacity(alloc, n as usize)?;
    for v in 0..n {
        let owner = division.owner_of(Vertex(v));
        tasks.push_reserved(owner.0 == me.0);
    }
    Ok(tasks)
}

/// The numbers that the vertices start with.
pub fn start_values<P: FullProgram>(
    alloc: Global,
    graph: &Graph,
    program: &P,
) -> Result<Vec<u64>, NoMemory>
    ensures { IfOk result (λ values.
        AreNumbers (size graph.now)
        (full_start graph.now (P.meaning program.now)).vertex values.items) }
{
    let mut values = Vec::with_capacity(alloc, graph.n() as usize)?;
    for v in 0..graph.n() {
        values.push(program.start(graph.id(Vertex(v))))?;
    }
    Ok(values)
}
