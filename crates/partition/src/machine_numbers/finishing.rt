//! Updates that were made, kept.
ghost use Rattle.std.specs.Prelude.{◌≡◌, ℕ, ◌+◌, ◌<◌, ◌==◌, ◌&&◌, true, false, not, Some, is_some, length, if◌then◌else◌};
ghost use Rattle.partition.specs.machine_numbers.Views.{AreTasksOf, HasEdge, is_own, own_datum, links_at, place_at, flag_there, datum_or};
ghost use Rattle.partition.specs.machine_numbers.Steps.{CanFinish, HasUpdated, HasRun, HasWritten, made_of, renewed, run_of};
ghost use Rattle.local_graph.specs.Locals.{set_where};

use crate::machine_numbers::waking::wake_along;
use crate::machine_numbers::{Numbers, ScratchBuffers, Spent};
use gl_base::{Datum, Entry, Vertex};
use local_graph::{LocalGraph, Outcome, Row, Work};
use task_sets::task_sched::TaskSet;
use update_api::Woken;

impl Numbers {
    /// Ends a work whose update was made in its own lists: keeps the new numbers of the vertex and
    /// of its edges, ends its task, makes those own vertices tasks that the update wakes, and logs
    /// the update. It takes no memory, and hands back the lists of the work.
    pub fn finish_work(&mut self, work: Work, woken: Woken, entry: Entry) -> ScratchBuffers
        requires can { CanFinish self.old (run_of work woken) }
        requires tasks { AreTasksOf self.old.local self.old.tasks }
        ensures updated { HasUpdated self.old self.new (made_of (run_of work woken)) entry }
        ensures written { HasWritten self.old self.new (run_of work woken) }
        ensures back { (x : ℕ) →
            links_at self.new.local x ≡
            (if x == work.vertex.0 then Some work.row.links.items
            else links_at self.old.local x) }
        ensures local { self.new.local ≡ record self.old.local {
          kept = self.new.local.kept;
          rows = self.new.local.rows;
          numbers = self.new.local.numbers;
        } }
        ensures ghosts { self.new.ghosts ≡ self.old.ghosts }
        ensures own { (x : ℕ) → is_own self.new.local x ≡ is_own self.old.local x }
        ensures edges { (e : ℕ) → HasEdge self.old.local e → HasEdge self.new.local e }
        ensures many_edges { length self.new.local.numbers ≡ length self.old.local.numbers }
        ensures run { (k : ℕ) → place_at self.old.local work.vertex.0 ≡ Some k →
            HasRun self.old.tasks self.new.tasks k }
        ensures tasks_kept { AreTasksOf self.new.local self.new.tasks }
        ensures many_tasks { length self.new.tasks.task ≡ length self.old.tasks.task }
        ensures spare { (result.edges ≡ work.row.numbers) ×
            (result.near ≡ work.near) }
        ensures links { result.links ≡ work.row.links }
    {
        let Work {
            vertex,
            value,
            row,
            near,
            ..
        } = work;
        let Row { links, numbers } = row;
        renew(&mut self.local, vertex, value);
        end_task(&mut self.tasks, &self.local, vertex);
        let sides = self.local.sides(vertex);
        wake_along(&mut self.tasks, &self.local, sides, &links, woken, value);
        self.local.put_row(vertex, &numbers);
        self.log.push_reserved(entry);
        ScratchBuffers {
            links,
            edges: numbers,
            near,
        }
    }

    /// The same for an outcome, whose work has the old numbers still. It hands back the lists of
    /// the work and of the outcome.
    pub fn finish(&mut self, outcome: Outcome, entry: Entry) -> Spent
        requires can { CanFinish self.old outcome }
        requires tasks { AreTasksOf self.old.local self.old.tasks }
        ensures updated { HasUpdated self.old self.new (made_of outcome) entry }
        ensures written { HasWritten self.old self.new outcome }
        ensures back { (x : ℕ) →
            links_at self.new.local x ≡
            (if x == outcome.work.vertex.0 then Some outcome.work.row.links.items
            else links_at self.old.local x) }
        ensures local { self.new.local ≡ record self.old.local {
          kept = self.new.local.kept;
          rows = self.new.local.rows;
          numbers = self.new.local.numbers;
        } }
        ensures ghosts { self.new.ghosts ≡ self.old.ghosts }
        ensures own { (x : ℕ) → is_own self.new.local x ≡ is_own self.old.local x }
        ensures edges { (e : ℕ) → HasEdge self.old.local e → HasEdge self.new.local e }
        ensures many_edges { length self.new.local.numbers ≡ length self.old.local.numbers }
        ensures run { (k : ℕ) → place_at self.old.local outcome.work.vertex.0 ≡ Some k →
            HasRun self.old.tasks self.new.tasks k }
        ensures tasks_kept { AreTasksOf self.new.local self.new.tasks }
        ensures many_tasks { length self.new.tasks.task ≡ length self.old.tasks.task }
        ensures spare { (result.edges ≡ outcome.work.row.numbers) ×
            (result.near ≡ outcome.work.near) }
        ensures made { result.made ≡ outcome.edges }
        ensures links { result.links ≡ outcome.work.row.links }
    {
        let Outcome {
            work,
            value,
            edges,
            woken,
        } = outcome;
        let Work {
            scope,
            vertex,
            id,
            row,
            near,
            ..
        } = work;
        let Row { links, numbers } = row;
        let row = Row {
            links,
            numbers: edges,
        };
        let run = Work {
            scope,
            vertex,
            id,
            value,
            row,
            near,
        };
        let ScratchBuffers { links, edges, near } = self.finish_work(run, woken, entry);
        Spent {
            links,
            edges: numbers,
            near,
            made: edges,
        }
    }
}

/// Keeps the new number of an own vertex; the version rises where the number changed.
fn renew(local: &mut LocalGraph, v: Vertex, value: u64)
    requires own { is_own local.old v.0 ≡ true }
    requires version { (datum_or (own_datum local.old v.0)).version < 4294967295 }
    ensures datum { (x : ℕ) →
        own_datum local.new x ≡
        (if x == v.0 then Some (renewed (datum_or (own_datum local.old v.0)) value)
        else own_datum local.old x) }
    ensures exact { local.new.kept ≡ set_where local.old.kept (place_at local.old v.0)
        (renewed (datum_or (own_datum local.old v.0)) value) }
    ensures rest { local.new ≡ record local.old { kept = local.new.kept } }
{
    let old = local.datum(v);
    if value != old.value {
        local.set_datum(
            v,
            Datum {
                value,
                version: old.version + 1,
                mark: old.mark,
            },
        );
    }
}

/// The update of an own vertex was made: it is no task and not admitted any more.
fn end_task(tasks: &mut TaskSet, local: &LocalGraph, v: Vertex)
    requires own { is_own local.now v.0 ≡ true }
    requires tasks { AreTasksOf local.now tasks.old }
    requires admitted { flag_there tasks.old.admitted (place_at local.now v.0) ≡ true }
    requires task { flag_there tasks.old.task (place_at local.now v.0) ≡ true }
    requires not_pending { flag_there tasks.old.pending (place_at local.now v.0) ≡ false }
    requires outside { tasks.old.outside < 18446744073709551615 }
    ensures each { (u : ℕ) →
        flag_there tasks.new.task (place_at local.now u) ≡
        (flag_there tasks.old.task (place_at local.now u) && not (u == v.0)) }
    ensures run { (k : ℕ) → place_at local.now v.0 ≡ Some k → HasRun tasks.old tasks.new k }
    ensures exact { tasks.new.task ≡ set_where tasks.old.task (place_at local.now v.0) false }
    ensures many { length tasks.new.task ≡ length tasks.old.task }
    ensures tasks { AreTasksOf local.now tasks.new }
{
    let count = tasks.count() as usize;
    if let Some(place) = local.place(v)
        && place < count
    {
        tasks.ran(Vertex(place as u32));
    }
}
