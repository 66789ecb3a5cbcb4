//! Works: ready scopes moved out for their updates.
ghost use Rattle.std.specs.Prelude.{◌≡◌, ◌+◌, ◌∷◌, ◌++◌, [], length, IfOk, IfErr};
ghost use Rattle.local_graph.specs.Works.{IsRow};
ghost use Rattle.update_api.specs.Links.{AreLinks, nears_at};
ghost use Rattle.update_api.specs.Marks.{AreMarked};

use crate::Row;
use gl_base::{ScopeId, Vertex};
use std::alloc::Global;
use update_api::{Link, Program, Scope, Woken};

/// A ready scope moved out for its update: its vertex with identifier and number, the row, and the
/// numbers at the other ends of the row's edges.
#[derive(Drop)]
pub struct Work {
    pub scope: ScopeId,
    pub vertex: Vertex,
    pub id: u64,
    pub value: u64,
    pub row: Row,
    pub near: Vec<u64>,
}

impl Work {
    /// Makes the update of the work in its own lists: the program may write the number of the
    /// vertex and those of its edges.
    pub fn update<P: Program>(&mut self, program: &P) -> Woken
        requires row { IsRow self.old.row.links.items (length self.old.near.items) }
        requires edges { length self.old.row.numbers.items ≡ length self.old.near.items }
        ensures rest { self.new ≡ record self.old {
          value = self.new.value;
          row = record self.old.row { numbers = self.new.row.numbers };
        } }
        ensures many { length self.new.row.numbers.items ≡ length self.old.row.numbers.items }
        ensures number { self.new.value ≡ (P.meaning program.now).number self.old.value
            (nears_at (self.old.near.items ++ self.old.value ∷ []) self.old.row.numbers.items
            self.old.row.links.items) }
        ensures marks { AreMarked ((P.meaning program.now).mark self.new.value)
            (self.old.near.items ++ self.old.value ∷ []) self.old.row.numbers.items
            self.old.row.links.items self.new.row.numbers.items }
        ensures woken { result ≡ (P.meaning program.now).woken self.old.value self.new.value }
    {
        update_scope(
            program,
            self.id,
            &self.row.links,
            &self.near,
            &mut self.value,
            &mut self.row.numbers,
        )
    }
}

/// Works of one machine.
#[derive(Drop)]
pub struct Batch {
    pub work: Vec<Work>,
}

/// A work as it was taken, and what its update makes of it: the new number of the vertex, those of
/// the row's edges, and whom it wakes.
#[derive(Drop)]
pub struct Outcome {
    pub work: Work,
    pub value: u64,
    pub edges: Vec<u64>,
    pub woken: Woken,
}

impl Outcome {
    /// The outcome of an update that changes nothing and wakes nobody. Want of memory hands the
    /// work back.
    pub fn of(alloc: Global, work: Work) -> Result<Outcome, Work>
        ensures work { IfOk result (λ o. o.work ≡ work) }
        ensures value { IfOk result (λ o. o.value ≡ work.value) }
        ensures edges { IfOk result (λ o. o.edges.items ≡ work.row.numbers.items) }
        ensures woken { IfOk result (λ o. o.woken ≡ Woken.Nobody) }
        ensures back { IfErr result (λ same. same ≡ work) }
    {
        Outcome::in_list(Vec::new(alloc), work)
    }

    /// The same, with the numbers of edges in this list. It takes memory only where the list has no
    /// room for them.
    pub fn in_list(list: Vec<u64>, work: Work) -> Result<Outcome, Work>
        ensures work { IfOk result (λ o. o.work ≡ work) }
        ensures value { IfOk result (λ o. o.value ≡ work.value) }
        ensures edges { IfOk result (λ o. o.edges.items ≡ work.row.numbers.items) }
        ensures woken { IfOk result (λ o. o.woken ≡ Woken.Nobody) }
        ensures back { IfErr result (λ same. same ≡ work) }
    {
        let mut edges = list;
        edges.clear();
        match edges.extend_from_slice(&work.row.numbers) {
            Ok(()) => Ok(Outcome {
                value: work.value,
                work,
                edges,
                woken: Woken::Nobody,
            }),
            Err(_) => Err(work),
        }
    }

    /// Makes the update of the work: the program may write the number of the vertex and those of
    /// its edges.
    pub fn update<P: Program>(&mut self, program: &P)
        requires row { IsRow self.old.work.row.links.items (length self.old.work.near.items) }
        requires edges { length self.old.edges.items ≡ length self.old.work.near.items }
        ensures work { self.new.work ≡ self.old.work }
        ensures many { length self.new.edges.items ≡ length self.old.edges.items }
        ensures number { self.new.value ≡ (P.meaning program.now).number self.old.value
            (nears_at (self.old.work.near.items ++ self.old.value ∷ []) self.old.edges.items
            self.old.work.row.links.items) }
        ensures marks { AreMarked ((P.meaning program.now).mark self.new.value)
            (self.old.work.near.items ++ self.old.value ∷ []) self.old.edges.items
            self.old.work.row.links.items self.new.edges.items }
        ensures woken { self.new.woken ≡ (P.meaning program.now).woken
            self.old.value self.new.value }
    {
        self.woken = update_scope(
            program,
            self.work.id,
            &self.work.row.links,
            &self.work.near,
            &mut self.value,
            &mut self.edges,
        );
    }
}

/// The update in its scope, where the number of the vertex stands behind those near it.
fn update_scope<P: Program>(
    program: &P,
    id: u64,
    links: &[Link],
    near: &[u64],
    centre: &mut u64,
    edges: &mut [u64],
) -> Woken
    requires { AreLinks links.now (length near.now) (length near.now + 1 + 0) (length edges.old) }
    ensures number { centre.new ≡ (P.meaning program.now).number centre.old
        (nears_at (near.now ++ centre.old ∷ []) edges.old links.now) }
    ensures marks { AreMarked ((P.meaning program.now).mark centre.new)
        (near.now ++ centre.old ∷ []) edges.old links.now edges.new }
    ensures woken { result ≡ (P.meaning program.now).woken centre.old centre.new }
{
    let mut scope = Scope::new(id, links, near, centre, &[], edges);
    program.update(&mut scope)
}
