//! The parts of a new machine.
ghost use Rattle.std.specs.Prelude.{◌<◌, ◌≤◌, length, All, IfOk};
ghost use Rattle.placement.specs.places.Places.{HaveFirstPlaces};
ghost use Rattle.placement.specs.places.Inner.Making.{AreEmptyWays, AreOwnLists};
ghost use Rattle.placement.specs.places.Cores.{IsMadeWith};

use crate::places::places::vertices_by_place;
use gl_base::{MachineNo, NoMemory, Vertex};
use local_graph::LocalGraph;
use machine_core::machine_parts::{Core, SpareParts, Terms};
use partition::machine_numbers::Numbers;
use scope_locks::scope_pipe::ScopePipe;
use scope_locks::vertex_locks::LockTable;
use std::alloc::Global;
use wire::outboxes::Outboxes;

/// As many lists that scopes leave behind are kept for the next ones.
const SPARE_LISTS: usize = 4096;

/// What a new machine goes by, how many machines and vertices there are, and the serial of the
/// first scope that it admits.
#[derive(Clone, Copy)]
pub struct NewTerms {
    pub terms: Terms,
    pub machines: u16,
    pub vertices: u32,
    pub serial: u64,
}

/// The parts of a machine with these numbers: nothing is in flight, nobody claims a lock, and
/// nothing waits to be sent.
pub fn new_core(alloc: Global, numbers: Numbers, terms: NewTerms) -> Result<Core, NoMemory>
    requires places { HaveFirstPlaces numbers.local }
    requires below { All (λ v. v.0 < terms.vertices) numbers.local.owned }
    requires few { length numbers.local.owned ≤ terms.vertices }
    ensures { IfOk result (IsMadeWith terms numbers) }
{
    let Beside { own, ways, spare } = made_beside(alloc, &numbers.local, terms)?;
    Ok(Core {
        terms: terms.terms,
        numbers,
        by_place: own.by_place,
        pipe: ways.pipe,
        locks: own.locks,
        out: ways.out,
        spare,
    })
}

/// What a new machine has beside its numbers.
#[derive(Drop)]
struct Beside {
    own: OwnLists,
    ways: Ways,
    spare: SpareParts,
}

/// What is kept of each own vertex: by its place the vertex, and its lock.
#[derive(Drop)]
struct OwnLists {
    by_place: Vec<Vertex>,
    locks: LockTable,
}

/// Where scopes are in flight, and where messages wait.
#[derive(Drop)]
struct Ways {
    pipe: ScopePipe,
    out: Outboxes,
}

/// What a new machine that holds this part of a graph has beside its numbers.
fn made_beside(alloc: Global, local: &LocalGraph, terms: NewTerms) -> Result<Beside, NoMemory>
    requires places { HaveFirstPlaces local.now }
    requires below { All (λ v. v.0 < terms.vertices) local.now.owned }
    requires few { length local.now.owned ≤ terms.vertices }
    ensures own { IfOk result (λ b. AreOwnLists local.now b.own) }
    ensures ways { IfOk result (λ b. AreEmptyWays local.now.me terms b.ways) }
{
    let own = own_lists(alloc, local, terms.vertices)?;
    let ways = empty_ways(alloc, local.me(), terms)?;
    let spare = SpareParts::with_room(alloc, SPARE_LISTS)?;
    Ok(Beside { own, ways, spare })
}

/// The own vertices by place, and a lock for each that nobody claims.
fn own_lists(alloc: Global, local: &LocalGraph, vertices: u32) -> Result<OwnLists, NoMemory>
    requires places { HaveFirstPlaces local.now }
    requires below { All (λ v. v.0 < vertices) local.now.owned }
    requires few { length local.now.owned ≤ vertices }
    ensures { IfOk result (AreOwnLists local.now) }
{
    let by_place = vertices_by_place(alloc, local)?;
    let locks = LockTable::new(alloc, local.owned(), vertices)?;
    Ok(OwnLists { by_place, locks })
}

/// A pipe without a scope, and an empty outbox to each machine.
fn empty_ways(alloc: Global, me: MachineNo, terms: NewTerms) -> Result<Ways, NoMemory>
    ensures { IfOk result (AreEmptyWays me terms) }
{
    let pipe = ScopePipe::from_serial(alloc, me, terms.terms.pipeline, terms.serial)?;
    let out = Outboxes::new(alloc, terms.machines)?;
    Ok(Ways { pipe, out })
}
