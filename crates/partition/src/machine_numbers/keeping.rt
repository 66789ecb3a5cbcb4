//! The numbers of a machine, and the works that are taken of them.
ghost use Rattle.std.specs.Prelude.{◌≡◌, ℕ, ◌≤◌, ◌==◌, true, None, Some, is_some, length, if◌then◌else◌, vec_capacity, IfOk};
ghost use Rattle.std.specs.List.{All};
ghost use Rattle.local_graph.specs.Played.{IsSideTo};
ghost use Rattle.partition.specs.machine_numbers.Views.{HasEdge, is_own, links_at, row_at, sides_at, numbers_along, datum_here, value_here, edge_here, near_along};
ghost use Rattle.partition.specs.machine_numbers.Steps.{HasTakenOut, HasRoom};

use gl_base::{Datum, Entry, NoMemory, ScopeId, Vertex};
use local_graph::{LocalGraph, Row, Side, Work};
use scope_locks::ghost_cache::GhostCache;
use std::alloc::Global;
use task_sets::task_sched::TaskSet;
use update_api::Link;

/// What of a machine carries numbers: its part of the graph with data, rows and the numbers of
/// edges, the copies of the data of ghosts, its tasks by their places in the machine's own order,
/// and the updates that it made.
#[derive(Drop)]
pub struct Numbers {
    pub local: LocalGraph,
    pub ghosts: GhostCache,
    pub tasks: TaskSet,
    pub log: Vec<Entry>,
}

/// Lists for a work: for its row's links, and for the numbers of the edges at its vertex and of
/// their other ends.
#[derive(Drop)]
pub struct ScratchBuffers {
    pub links: Vec<Link>,
    pub edges: Vec<u64>,
    pub near: Vec<u64>,
}

/// Lists that a work leaves behind whose update was kept: those of the work, and the one in which
/// the new numbers of its edges stood.
#[derive(Drop)]
pub struct Spent {
    pub links: Vec<Link>,
    pub edges: Vec<u64>,
    pub near: Vec<u64>,
    pub made: Vec<u64>,
}

impl ScratchBuffers {
    /// Lists with room for a work of a vertex with so many edges.
    pub fn with_room(alloc: Global, degree: usize) -> Result<ScratchBuffers, NoMemory>
        ensures { IfOk result (λ spare. HasRoom spare degree) }
    {
        Ok(ScratchBuffers {
            links: Vec::with_capacity(alloc, degree)?,
            edges: Vec::with_capacity(alloc, degree)?,
            near: Vec::with_capacity(alloc, degree)?,
        })
    }
}

impl Numbers {
    /// The datum of an own vertex or the copy of a ghost's, and 0 in each field for any other
    /// vertex.
    pub fn datum(&self, v: Vertex) -> Datum
        ensures { result ≡ datum_here self.now v.0 }
    {
        if self.local.owns(v) {
            self.local.datum(v)
        } else if self.ghosts.has(v) {
            self.ghosts.get(v)
        } else {
            Datum {
                value: 0,
                version: 0,
                mark: 0,
            }
        }
    }

    /// Lends out the row of a ready scope's vertex for its update, with the numbers that the update
    /// may use. The lists of `spare` have room for them, so it takes no memory.
    pub fn take_work(&mut self, scope: ScopeId, v: Vertex, spare: ScratchBuffers) -> Work
        requires own { is_own self.old.local v.0 ≡ true }
        requires row { is_some (links_at self.old.local v.0) ≡ true }
        requires room { HasRoom spare (length (sides_at self.old.local v.0)) }
        ensures { HasTakenOut self.old self.new scope v result }
    {
        let ScratchBuffers { links, edges, near } = spare;
        let id = self.local.id(v);
        let value = self.datum(v).value;
        let near = self.gather(v, near);
        let spare = Row {
            links,
            numbers: edges,
        };
        let row = self.local.take_row(v, spare);
        Work {
            scope,
            vertex: v,
            id,
            value,
            row,
            near,
        }
    }

    /// The row of a work is in again, of which no update was made: no number changes. Hands back the
    /// lists of the work.
    pub fn put_back(&mut self, work: Work) -> ScratchBuffers
        requires own { is_own self.old.local work.vertex.0 ≡ true }
        requires links { work.row.links.items ≡ row_at self.old.local work.vertex.0 }
        requires numbers { work.row.numbers.items ≡ numbers_along (edge_here self.old)
            (sides_at self.old.local work.vertex.0) }
        ensures back { (x : ℕ) →
            links_at self.new.local x ≡ (if x == work.vertex.0 then Some work.row.links.items
            else links_at self.old.local x) }
        ensures edge { (e : ℕ) → edge_here self.new e ≡ edge_here self.old e }
        ensures edges { (e : ℕ) → HasEdge self.old.local e → HasEdge self.new.local e }
        ensures many_edges { length self.new.local.numbers ≡ length self.old.local.numbers }
        ensures rest { self.new ≡
            record self.old {
              local = record self.old.local {
                rows = self.new.local.rows;
                numbers = self.new.local.numbers;
              };
            } }
        ensures spare { (result.edges ≡ work.row.numbers) × (result.near ≡ work.near) }
        ensures links { result.links ≡ work.row.links }
    {
        let Work {
            vertex,
            row,
            near,
            ..
        } = work;
        let Row { links, numbers } = row;
        self.local.put_row(vertex, &numbers);
        ScratchBuffers {
            links,
            edges: numbers,
            near,
        }
    }

    /// The number at the end of a side that has its place.
    #[inline]
    fn value_along(&self, side: &Side) -> u64
        requires { IsSideTo self.now.local.places side.now }
        ensures { result ≡ value_here self.now side.now.other.0 }
    {
        if let Some(datum) = self.local.datum_along(side) {
            return datum.value;
        }
        if self.ghosts.has(side.other) {
            self.ghosts.get(side.other).value
        } else {
            0
        }
    }

    /// The numbers at the other ends of the edges at a vertex, in a list that has room for them.
    fn gather(&self, v: Vertex, spare: Vec<u64>) -> Vec<u64>
        requires { length (sides_at self.now.local v.0) ≤ vec_capacity spare }
        ensures { result.items ≡ near_along (value_here self.now) (sides_at self.now.local v.0) }
    {
        fill_near(spare, self.local.ends(v), self)
    }
}

/// The numbers at the other ends of these sides, in a list that has room for them. The sides have
/// the places of these ends.
fn fill_near(spare: Vec<u64>, sides: &[Side], numbers: &Numbers) -> Vec<u64>
    requires places { All (IsSideTo numbers.now.local.places) sides.now }
    requires room { length sides.now ≤ vec_capacity spare }
    ensures { result.items ≡ near_along (value_here numbers.now) sides.now }
{
    let mut near = spare;
    near.clear();
    for side in sides {
        near.push_reserved(numbers.value_along(side));
    }
    near
}
