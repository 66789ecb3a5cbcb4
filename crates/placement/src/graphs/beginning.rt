//! The numbers with which a machine begins.
ghost use Rattle.std.specs.Prelude.{◌≡◌, ℕ, ◌<◌, ◌^◌, true, Some, is_some, length, slice_index, All, IfOk};
ghost use Rattle.placement.specs.graphs.Placed.{AreUnsetParts, IsUnsetPart, Setting, edge_number_at, is_own, own_datum};
ghost use Rattle.placement.specs.graphs.Beginnings.{EachMachineStarts, AreFirstNumbers, AreFreshTasks, BeginsWith, CanEachMachineStart, CanBegin, IsReadyPart, first_datum, ghost_datum};

use gl_base::{Base, Datum, EdgeNo, GhostLine, NoMemory, Vertex};
use local_graph::LocalGraph;
use partition::machine_numbers::Numbers;
use scope_locks::ghost_cache::GhostCache;
use std::alloc::Global;
use task_sets::task_sched::TaskSet;

/// The numbers of a machine as a run begins from this base: those of its own vertices, of its
/// ghosts and of the edges, with every own vertex a task in the order in which the machine keeps
/// them, and an empty log.
pub fn first_numbers(
    alloc: Global,
    local: LocalGraph,
    base: &Base,
    window: Option<u32>,
) -> Result<Numbers, NoMemory>
    requires { CanBegin local base.now }
    ensures numbers { (st : Setting) → IsUnsetPart st local.me.0 local → BeginsWith st base.now →
        IfOk result (λ n. AreFirstNumbers st local.me.0 n) }
    ensures part { (st : Setting) → IsUnsetPart st local.me.0 local →
        IfOk result (λ n. IsReadyPart st local.me.0 n) }
    ensures tasks { IfOk result (λ n. AreFreshTasks window n.tasks) }
{
    let mut local = local;
    let values: &[u64] = &base.values;
    let edges: &[u64] = &base.edges;
    let mut ghosts = GhostCache::new(alloc, local.ghosts(), values.len() as u32)?;
    let tasks = TaskSet::new(alloc, local.owned().len() as u32, window)?;
    set_own(&mut local, values, base.number);
    set_edges(&mut local, edges);
    set_ghosts(&mut ghosts, local.ghosts(), values, base.number);
    Ok(Numbers {
        local,
        ghosts,
        tasks,
        log: Vec::new(alloc),
    })
}

/// The same of each machine, in turn. The parts are moved into the numbers.
pub fn first_numbers_of_all(
    alloc: Global,
    parts: Vec<LocalGraph>,
    base: &Base,
    window: Option<u32>,
) -> Result<Vec<Numbers>, NoMemory>
    requires { CanEachMachineStart parts.items base.now }
    ensures { (st : Setting) → AreUnsetParts st parts.items → BeginsWith st base.now →
        IfOk result (λ all. EachMachineStarts st window all.items) }
{
    let mut all = Vec::with_capacity(alloc, parts.len())?;
    for local in parts {
        all.push(first_numbers(alloc, local, base, window)?)?;
    }
    Ok(all)
}

/// Sets the number of each edge.
fn set_edges(local: &mut LocalGraph, edges: &[u64])
    requires each { length edges.now ≡ length local.old.numbers }
    requires few { length edges.now < 2 ^ 32 }
    ensures set { (e : ℕ) → e < length edges.now →
        edge_number_at local.new e ≡ slice_index edges.now e }
    ensures many { length local.new.numbers ≡ length local.old.numbers }
    ensures rest { local.new ≡ record local.old { numbers = local.new.numbers } }
{
    for e in 0..edges.len() {
        local.set_number(EdgeNo(e as u32), edges[e]);
    }
}

/// Sets the datum of each own vertex.
fn set_own(local: &mut LocalGraph, values: &[u64], mark: u32)
    requires own { All (λ v. is_own local.old v.0 ≡ true) local.old.owned }
    requires below { All (λ v. v.0 < length values.now) local.old.owned }
    ensures own { (x : ℕ) → is_own local.new x ≡ is_own local.old x }
    ensures set { All (λ v.
        own_datum local.new v.0 ≡ Some (first_datum values.now mark v.0)) local.old.owned }
    ensures rest { local.new ≡ record local.old { kept = local.new.kept } }
{
    for place in 0..local.owned().len() {
        let v = local.owned()[place];
        local.set_datum(v, first_datum(values, mark, v));
    }
}

/// Sets the datum of each of these ghosts.
fn set_ghosts(cache: &mut GhostCache, ghosts: &[GhostLine], values: &[u64], mark: u32)
    requires known { All (λ g. is_some (ghost_datum cache.old g.vertex.0) ≡ true) ghosts.now }
    requires below { All (λ g. g.vertex.0 < length values.now) ghosts.now }
    ensures known { (x : ℕ) →
        is_some (ghost_datum cache.new x) ≡ is_some (ghost_datum cache.old x) }
    ensures set { All (λ g.
        ghost_datum cache.new g.vertex.0 ≡ Some (first_datum values.now mark g.vertex.0))
        ghosts.now }
{
    for line in ghosts {
        cache.set(line.vertex, first_datum(values, mark, line.vertex));
    }
}

/// The datum of a vertex as it begins.
fn first_datum(values: &[u64], mark: u32, v: Vertex) -> Datum
    requires { v.0 < length values.now }
    ensures { result ≡ first_datum values.now mark v.0 }
{
    Datum {
        value: values[v.0 as usize],
        version: 0,
        mark,
    }
}
