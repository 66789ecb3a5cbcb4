//! What a machine learns of updates elsewhere.
ghost use Rattle.std.specs.Prelude.{◌≡◌, ℕ, ◌==◌, true, false, Some, is_some, length, if◌then◌else◌};
ghost use Rattle.std.specs.List.{All};
ghost use Rattle.partition.specs.machine_numbers.Views.{is_own, HasEdge, AreTasksOf, ghost_datum, edge_number_at, datum_or, number_told, news_of};
ghost use Rattle.partition.specs.machine_numbers.Steps.{HasLearned, newer_datum, edge_after};

use crate::machine_numbers::Numbers;
use crate::machine_numbers::waking::wake_named;
use gl_base::{Datum, EdgeNo, Vertex};
use local_graph::LocalGraph;
use scope_locks::ghost_cache::GhostCache;
use wire::wire_msgs::Done;

impl Numbers {
    /// Word of an update elsewhere has come: keeps the datum of its vertex where that is newer, and
    /// the new numbers of edges, and makes those vertices tasks that it wakes. It takes no memory.
    pub fn learn(&mut self, done: &Done)
        requires known { is_some (ghost_datum self.old.ghosts done.now.centre.0) ≡ true }
        requires not_own { is_own self.old.local done.now.centre.0 ≡ false }
        requires edges { All (λ e. HasEdge self.old.local e.0.0) done.now.edges.items }
        requires wakes { All (λ v. is_own self.old.local v.0 ≡ true) done.now.wakes.items }
        requires tasks { AreTasksOf self.old.local self.old.tasks }
        ensures learned { HasLearned self.old self.new (news_of done.now) }
        ensures local { self.new.local ≡
            record self.old.local { numbers = self.new.local.numbers } }
        ensures edges { (e : ℕ) → HasEdge self.old.local e → HasEdge self.new.local e }
        ensures many_edges { length self.new.local.numbers ≡ length self.old.local.numbers }
        ensures ghosts { (x : ℕ) →
            is_some (ghost_datum self.new.ghosts x) ≡ is_some (ghost_datum self.old.ghosts x) }
        ensures tasks { self.new.tasks ≡ record self.old.tasks { task = self.new.tasks.task } }
        ensures many_tasks { length self.new.tasks.task ≡ length self.old.tasks.task }
        ensures tasks_kept { AreTasksOf self.new.local self.new.tasks }
    {
        keep(&mut self.ghosts, done.centre, done.datum);
        write_edges(&mut self.local, &done.edges);
        let key = self.datum(done.centre).value;
        wake_named(&mut self.tasks, &self.local, &done.wakes, key);
    }
}

/// Takes the datum of a ghost that is told, where one is and its version is greater.
fn keep(ghosts: &mut GhostCache, v: Vertex, datum: Option<Datum>)
    requires { is_some (ghost_datum ghosts.old v.0) ≡ true }
    ensures { (x : ℕ) → ghost_datum ghosts.new x ≡
        (if x == v.0 then Some (newer_datum (datum_or (ghost_datum ghosts.old v.0)) datum)
        else ghost_datum ghosts.old x) }
{
    if let Some(datum) = datum {
        ghosts.apply(v, datum);
    }
}

/// Writes the numbers of edges that are told; the first of an edge counts.
fn write_edges(local: &mut LocalGraph, edges: &[(EdgeNo, u64)])
    requires { All (λ e. HasEdge local.old e.0.0) edges.now }
    ensures each { (e : ℕ) →
        edge_number_at local.new e ≡ edge_after (number_told edges.now e)
        (edge_number_at local.old e) }
    ensures edges { (e : ℕ) → HasEdge local.old e → HasEdge local.new e }
    ensures many { length local.new.numbers ≡ length local.old.numbers }
    ensures rest { local.new ≡ record local.old { numbers = local.new.numbers } }
{
    for place in (0..edges.len()).rev() {
        let (edge, number) = edges[place];
        local.set_number(edge, number);
    }
}
