//! Clusters that begin, or begin again.
ghost use Rattle.std.specs.Prelude.{◌≡◌, ◌+◌, ◌^◌, ◌<◌, ℕ, All, IfOk, IsTrue, Some, length};
ghost use Rattle.coordinator.specs.coord_core.Stores.{store_view};
ghost use Rattle.graph_core.specs.DataGraph.{IsDataGraph, size};
ghost use Rattle.placed_machines.specs.Beginning.{AreColoursFor, ArePlacesOf, BaseView, Cluster, IsBaseFor, IsAnyMachineOf, Setting};
ghost use Rattle.cluster_step.specs.clusters.Clusters.{StartsSaving};

use crate::plans::Plan;
use crate::trouble::Trouble;
use cluster_step::clusters::{SavingMachine, SnapCluster};
use cluster_step::trace::Trace;
use coordinator::coord_core::{Engine, Store};
use gl_base::{Algorithm, AtomNo, Base, EngineKind, FailureAt, MachineNo, NoMemory, Vertex};
use graph_core::Graph;
use graph_core::color_steps::{greatest_colour, greedy_colouring};
use placed_machines::any_machine::AnyMachine;
use placed_machines::{Places, SavingRun, machines_of_attempt};
use placement::graphs::first_base;
use std::alloc::Global;
use update_api::Program;

/// A cluster that takes snapshots, whose machines run this program.
pub type Whole<P> = SnapCluster<AnyMachine<P>>;

/// Such a cluster in the course of a call.
pub type InTrace<P> = Trace<AnyMachine<P>>;

/// As many tickets as there are at most.
const MOST_TICKETS: u64 = 4611686018427387904;

/// As many bytes as a store has at most.
const MOST_BYTES: u64 = 1073741824;

/// What a cluster begins with, each time that it does.
#[derive(Drop)]
pub struct Beginning<'a, P: Program> {
    pub graph: &'a Graph,
    pub program: P,
    pub algorithm: Algorithm,
    /// Each vertex is in the atom of its machine's number.
    pub of: Vec<AtomNo>,
    pub machines: u16,
    pub pipeline: u16,
    pub window: u32,
    pub engine: EngineKind,
    pub tickets: u64,
    /// The numbers with which the run begins.
    pub base: Base,
    /// Whether a call begins on a board.
    pub is_on_board: bool,
}

/// Returns what the plan says of it.
pub fn beginning_of<'a, P: Program>(
    alloc: Global,
    graph: &'a Graph,
    program: P,
    plan: &Plan,
) -> Result<Beginning<'a, P>, Trouble> {
    let (Ok(pipeline), Ok(window)) = (u16::try_from(plan.pipeline), u32::try_from(plan.window))
    else {
        return Err(Trouble::Because("a limit is too great"));
    };
    if plan.tickets >= MOST_TICKETS {
        return Err(Trouble::Because("there are too many tickets"));
    }
    let of = atoms_of(alloc, &plan.machines)?;
    let base = base_of(alloc, graph, &program, plan)?;
    Ok(Beginning {
        graph,
        program,
        algorithm: plan.algorithm,
        machines: count_of(&of),
        of,
        pipeline,
        window,
        engine: plan.engine,
        tickets: plan.tickets,
        base,
        is_on_board: plan.is_on_board,
    })
}

/// Returns the atom of each vertex: the one of its machine's number.
fn atoms_of(alloc: Global, numbers: &[u64]) -> Result<Vec<AtomNo>, Trouble> {
    let mut of = Vec::new(alloc);
    for number in numbers {
        if *number >= 16 {
            return Err(Trouble::Because("there are too many machines"));
        }
        of.push(AtomNo(*number as u16))?;
    }
    Ok(of)
}

/// Returns how many machines there are, if the vertices are in these atoms.
fn count_of(of: &[AtomNo]) -> u16 {
    let mut last = 0;
    for atom in of {
        last = last.max(atom.0);
    }
    last.saturating_add(1)
}

/// Returns the machine of each atom.
fn owners_of(alloc: Global, machines: u16) -> Result<Vec<MachineNo>, Trouble> {
    let mut owner = Vec::new(alloc);
    for machine in 0..machines {
        owner.push(MachineNo(machine))?;
    }
    Ok(owner)
}

/// Returns the numbers with which the plan begins: those that it lists, or else those with which
/// the program starts, and 0 for each edge.
fn base_of<P: Program>(
    alloc: Global,
    graph: &Graph,
    program: &P,
    plan: &Plan,
) -> Result<Base, Trouble> {
    let mut base = first_base(alloc, graph, program)?;
    if !plan.values.is_empty() {
        base.values = Vec::from_slice(alloc, &plan.values)?;
    }
    if !plan.marks.is_empty() {
        base.edges = Vec::from_slice(alloc, &plan.marks)?;
    }
    Ok(base)
}

/// Returns whether each vertex has an atom, and each atom one of so many machines.
fn has_places(graph: &Graph, of: &[AtomNo], owner: &[MachineNo], machines: u16) -> bool
    ensures each { IsTrue result → length of.now ≡ size graph.now }
    ensures atoms { IsTrue result → All (λ a. a.0 < length owner.now) of.now }
    ensures machines { IsTrue result → All (λ m. m.0 < machines) owner.now }
    ensures graph { IsDataGraph graph.now }
{
    of.len() == graph.n() as usize
        && of.iter().all(|a| (a.0 as usize) < owner.len())
        && owner.iter().all(|m| m.0 < machines)
}

/// Returns whether there is a number for each vertex and for each edge.
fn has_numbers(graph: &Graph, base: &Base) -> bool
    ensures { IsTrue result → IsBaseFor graph.now base.now }
{
    base.values.len() == graph.n() as usize && base.edges.len() == graph.m() as usize
}

/// Returns the store of this base, as the cluster knows it.
fn store_of(graph: &Graph, base: &Base) -> Store
    ensures vertices { result.vertices ≡ size graph.now }
    ensures edges { result.edges ≡ length graph.now.edges }
    ensures newest { result.newest ≡ base.now.number }
    ensures length { result.length ≡ base.now.length }
{
    Store {
        vertices: graph.n(),
        edges: graph.m(),
        newest: base.number,
        length: base.length,
    }
}

/// Returns how updates on the graph are kept apart, and the colour of each vertex if they run by
/// colours.
fn kept_apart(
    alloc: Global,
    graph: &Graph,
    kind: EngineKind,
) -> Result<(Engine, Vec<u32>), NoMemory>
    ensures { IfOk result (λ made. AreColoursFor graph.now made.0 made.1.items) }
{
    match kind {
        EngineKind::Locking => Ok((Engine::Locking, Vec::new(alloc))),
        EngineKind::Chromatic => {
            let colours = greedy_colouring(alloc, graph)?;
            Ok((Engine::Chromatic(greatest_colour(&colours)), colours))
        }
    }
}

/// Returns the places of the graph, if each vertex has a machine.
fn places_of<P: Program>(alloc: Global, beginning: &Beginning<'_, P>) -> Result<Places, Trouble>
    ensures places { IfOk result (λ places.
        ArePlacesOf beginning.now.graph.now places.run.machines places) }
    ensures window { IfOk result (λ places. places.run.window ≡ Some beginning.now.window) }
    ensures graph { IfOk result (λ places. IsDataGraph beginning.now.graph.now) }
{
    let graph = beginning.graph;
    let of = Vec::from_slice(alloc, &beginning.of)?;
    let owner = owners_of(alloc, beginning.machines)?;
    if !has_places(graph, &of, &owner, beginning.machines) {
        return Err(Trouble::Because("a vertex is without a machine"));
    }
    let (engine, colours) = kept_apart(alloc, graph, beginning.engine)?;
    let run = SavingRun {
        machines: beginning.machines,
        pipeline: beginning.pipeline,
        first: Vertex(0),
        window: Some(beginning.window),
        engine,
    };
    Ok(Places {
        of,
        owner,
        colours,
        run,
    })
}

/// The machines that begin an attempt, their engine, and the store of their base.
#[derive(Drop)]
struct Start<P: Program> {
    machines: Vec<AnyMachine<P>>,
    engine: Engine,
    store: Store,
}

/// Returns the start from this base, if each vertex has a machine; each machine has admitted so
/// many scopes.
fn start_from<P: Program>(
    alloc: Global,
    beginning: &Beginning<'_, P>,
    base: &Base,
    serials: &[u64],
) -> Result<Start<P>, Trouble>
    ensures start { IfOk result (λ start. (next left : ℕ) → (st : Setting) × (view : BaseView) ×
        (before : Cluster) ×
        StartsSaving (IsAnyMachineOf P.meaning) start.machines.items start.engine
        (Some (store_view start.store)) next left st view before) }
    ensures many { IfOk result (λ start. length start.machines.items < 65535) }
    ensures newest { IfOk result (λ start. start.store.newest + 1 < 2 ^ 32) }
    ensures length { IfOk result (λ start. start.store.length < 2 ^ 32) }
{
    let places = places_of(alloc, beginning)?;
    start_at(alloc, beginning, base, &places, serials)
}

/// Returns the same at these places.
fn start_at<P: Program>(
    alloc: Global,
    beginning: &Beginning<'_, P>,
    base: &Base,
    places: &Places,
    serials: &[u64],
) -> Result<Start<P>, Trouble>
    requires places { ArePlacesOf beginning.now.graph.now places.now.run.machines places.now }
    requires window { places.now.run.window ≡ Some beginning.now.window }
    requires graph { IsDataGraph beginning.now.graph.now }
    ensures start { IfOk result (λ start. (next left : ℕ) → (st : Setting) × (view : BaseView) ×
        (before : Cluster) ×
        StartsSaving (IsAnyMachineOf P.meaning) start.machines.items start.engine
        (Some (store_view start.store)) next left st view before) }
    ensures many { IfOk result (λ start. length start.machines.items < 65535) }
    ensures newest { IfOk result (λ start. start.store.newest + 1 < 2 ^ 32) }
    ensures length { IfOk result (λ start. start.store.length < 2 ^ 32) }
{
    let (graph, program) = (beginning.graph, beginning.program);
    let run = places.run;
    if serials.len() != run.machines as usize || run.machines == u16::MAX {
        return Err(Trouble::Because("there is another count of machines"));
    }
    if !has_numbers(graph, base) {
        return Err(Trouble::Because("there is not a number for each"));
    }
    let store = store_of(graph, base);
    if store.newest == u32::MAX || store.length > MOST_BYTES {
        return Err(Trouble::Because("the store is too great"));
    }
    let machines = machines_of_attempt(alloc, graph, program, base, places, serials)?;
    Ok(Start {
        machines,
        engine: run.engine,
        store,
    })
}

/// Returns the cluster as it begins.
pub fn begun<P: Program>(alloc: Global, beginning: &Beginning<'_, P>) -> Result<Whole<P>, Trouble> {
    let tickets = beginning.tickets;
    if tickets >= MOST_TICKETS {
        return Err(Trouble::Because("there are too many tickets"));
    }
    let start = first_start(alloc, beginning, &beginning.base)?;
    Ok(SnapCluster::new(
        alloc,
        start.machines,
        start.engine,
        Some(start.store),
        0,
        tickets,
    )?)
}

/// Returns the start from this base, of machines that have admitted nothing.
fn first_start<P: Program>(
    alloc: Global,
    beginning: &Beginning<'_, P>,
    base: &Base,
) -> Result<Start<P>, Trouble>
    ensures start { IfOk result (λ start. (next left : ℕ) → (st : Setting) × (view : BaseView) ×
        (before : Cluster) ×
        StartsSaving (IsAnyMachineOf P.meaning) start.machines.items start.engine
        (Some (store_view start.store)) next left st view before) }
    ensures many { IfOk result (λ start. length start.machines.items < 65535) }
    ensures newest { IfOk result (λ start. start.store.newest + 1 < 2 ^ 32) }
    ensures length { IfOk result (λ start. start.store.length < 2 ^ 32) }
{
    let serials = vec![in alloc; 0u64; beginning.machines as usize]?;
    start_from(alloc, beginning, base, &serials)
}

/// Lets all machines of the cluster go back to this base. Returns `true`.
pub fn begin_again<P: Program>(
    alloc: Global,
    beginning: &Beginning<'_, P>,
    base: &Base,
    whole: &mut Whole<P>,
) -> Result<bool, Trouble> {
    let serials = serials_of(alloc, whole)?;
    let start = start_from(alloc, beginning, base, &serials)?;
    if start.machines.len() != whole.machines() {
        drop(start);
        return Err(Trouble::Because("there is another count of machines"));
    }
    whole.recover(alloc, start.machines, start.engine, Some(start.store))?;
    Ok(true)
}

/// Returns how many scopes each machine of the cluster has admitted.
fn serials_of<P: Program>(alloc: Global, whole: &Whole<P>) -> Result<Vec<u64>, Trouble> {
    let mut serials = Vec::new(alloc);
    for m in 0..whole.machines() {
        serials.push(whole.machine(MachineNo(m as u16)).serial())?;
    }
    Ok(serials)
}

/// Returns the same of each machine of the call.
fn serials_in<P: Program>(alloc: Global, trace: &InTrace<P>) -> Result<Vec<u64>, Trouble> {
    let mut serials = Vec::new(alloc);
    for m in 0..trace.machines() {
        serials.push(trace.machine(MachineNo(m as u16)).serial())?;
    }
    Ok(serials)
}

/// Returns the call that opens from this base, with these failures.
pub fn begin_call<P: Program>(
    alloc: Global,
    beginning: &Beginning<'_, P>,
    base: &Base,
    failures: &[FailureAt],
) -> Result<InTrace<P>, Trouble> {
    let tickets = beginning.tickets;
    if tickets >= MOST_TICKETS {
        return Err(Trouble::Because("there are too many tickets"));
    }
    let failures = Vec::from_slice(alloc, failures)?;
    let start = first_start(alloc, beginning, base)?;
    let whole = SnapCluster::new(
        alloc,
        start.machines,
        start.engine,
        Some(start.store),
        0,
        tickets,
    )?;
    Ok(Trace::open(alloc, whole, failures)?)
}

/// Lets all machines of the call go back to this base.
pub fn call_again<P: Program>(
    alloc: Global,
    beginning: &Beginning<'_, P>,
    base: &Base,
    trace: &mut InTrace<P>,
) -> Result<(), Trouble> {
    let serials = serials_in(alloc, trace)?;
    let start = start_from(alloc, beginning, base, &serials)?;
    if start.machines.len() != trace.machines() {
        drop(start);
        return Err(Trouble::Because("there is another count of machines"));
    }
    Ok(trace.recover(alloc, start.machines, start.engine, Some(start.store))?)
}
