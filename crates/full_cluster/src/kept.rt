//! The numbers and the tasks that a machine keeps.
ghost use Rattle.std.specs.Prelude.{◌≡◌, ◌≢◌, ℕ, ◌+◌, ◌<◌, ◌==◌, ◌&&◌, ◌||◌, not, false, if◌then◌else◌, Option, length, slice_index, All, IfOk, OnOk, OnErr};
ghost use Rattle.gl_base.specs.declared.entries.Entry.{Entry};
ghost use Rattle.gl_base.specs.declared.scopes.ScopeId.{ScopeId};
ghost use Rattle.graph_core.specs.DataGraph.{size};
ghost use Rattle.graph_core.specs.Halves.{halves_of};
ghost use Rattle.seq_run.specs.Inner.Waking.{is_woken_along};
ghost use Rattle.seq_run.specs.States.{is_woken};
ghost use Rattle.cluster_laws.specs.cluster_core.Settings.{Setting};
ghost use Rattle.full_scope.specs.FullStates.{after_full, full_wakes};
ghost use Rattle.full_scope.specs.FullUpdates.{FullUpdate};
ghost use Rattle.full_laws.specs.FullEffects.{gathers, lent_full, takes_gift, updated_full};
ghost use Rattle.full_laws.specs.FullMessages.{Gift};
ghost use Rattle.full_laws.specs.FullParts.{FullPart};
ghost use Rattle.full_cluster.specs.Given.{edge_after, is_listed, is_marked, vertex_after, AreGatheredAt, AreOfScope, HasGathered, HasNumbers, IsDividedAs, IsGift, IsSeenList};
ghost use Rattle.full_cluster.specs.Owners.{owner_in};
ghost use Rattle.full_cluster.specs.Inner.Making.{IsMade};
ghost use Rattle.full_cluster.specs.Inner.Rows.{nth_half, wakes_own};

use crate::updates::{MadeUpdate, make_update, write_made};
use crate::{Division, FullGift};
use full_scope::FullProgram;
use gl_base::{EdgeNo, MachineNo, NoMemory, Vertex};
use graph_core::Half;
use std::alloc::Global;
use update_api::Woken;

/// A list of the numbers of all vertices, one of those of all edges, and one of which vertices are
/// tasks. Those that the machine doesn't keep mean nothing.
#[derive(Drop)]
pub struct KeptNumbers {
    pub numbers: Vec<u64>,
    pub edges: Vec<u64>,
    pub tasks: Vec<bool>,
}

impl KeptNumbers {
    /// Adds the number of x to what a scope has gathered. After `NoMemory` the list is unchanged.
    pub fn gather(&self, x: Vertex, seen: &mut Vec<(Vertex, u64)>) -> Result<(), NoMemory>
        requires { x.0 < length self.now.numbers.items }
        ensures gathered { (f : ℕ → Option ℕ) → IsSeenList seen.old.items f →
            OnOk result (IsSeenList seen.new.items
            (gathers x.0 (slice_index self.now.numbers.items x.0) f)) }
        ensures unchanged { OnErr result (seen.new.items ≡ seen.old.items) }
    {
        seen.push((x, self.numbers[x.0 as usize]))?;
        Ok(())
    }

    /// Takes what is given. Locks are not looked at.
    pub fn take(&mut self, gift: &FullGift)
        requires vertices { All (λ pair.
            pair.0.0 < length self.old.numbers.items) gift.now.numbers.items }
        requires edges { All (λ pair. pair.0.0 < length self.old.edges.items) gift.now.edges.items }
        requires wakes { All (λ u. u.0 < length self.old.tasks.items) gift.now.wakes.items }
        ensures { (st : Setting) (a : ℕ) (part : FullPart) (s : ScopeId) (g : Gift) →
            HasNumbers st a self.old part → IsGift st gift.now g →
            HasNumbers st a self.new (takes_gift s g part) }
    {
        write_vertices(&mut self.numbers, &gift.numbers);
        write_edges(&mut self.edges, &gift.edges);
        mark_all(&mut self.tasks, &gift.wakes);
    }

    /// Makes the update of v at its home, machine `me`, on a copy of what it is lent: the numbers that
    /// were gathered, and those of the edges here. What the machine keeps stays, whatever the answer.
    pub fn make<P: FullProgram>(
        &mut self,
        alloc: Global,
        division: &Division<'_>,
        program: &P,
        me: MachineNo,
        v: Vertex,
        seen: &[(Vertex, u64)],
    ) -> Result<MadeUpdate, NoMemory>
        requires vertex { v.0 < size division.now.graph.now }
        requires count { length self.old.numbers.items ≡ size division.now.graph.now }
        requires edge_count { length self.old.edges.items ≡ length division.now.graph.now.edges }
        requires seen { All (λ pair. pair.0.0 < length self.old.numbers.items) seen.now }
        ensures kept { (st : Setting) (part : FullPart) → IsDividedAs st division.now →
            HasNumbers st me.0 self.old part → HasNumbers st me.0 self.new part }
        ensures lent { (st : Setting) (part : FullPart) (f : ℕ → Option ℕ) →
            IsDividedAs st division.now → st.owner v.0 ≡ me.0 →
            HasNumbers st (st.owner v.0) self.old part → IsSeenList seen.now f →
            AreGatheredAt st (st.owner v.0) v.0 f part →
            HasGathered f self.new.numbers.items }
        ensures made { (st : Setting) (part : FullPart) (f : ℕ → Option ℕ) →
            IsDividedAs st division.now → st.owner v.0 ≡ me.0 →
            HasNumbers st (st.owner v.0) self.old part → IsSeenList seen.now f →
            AreGatheredAt st (st.owner v.0) v.0 f part →
            let s = after_full st.graph (P.meaning program.now) (lent_full f part) v.0 in
            IfOk result (λ made. IsMade st.graph s v.0 made.centre made.row.items) }
        ensures woken { (st : Setting) (part : FullPart) (f : ℕ → Option ℕ) →
            IsDividedAs st division.now → st.owner v.0 ≡ me.0 →
            HasNumbers st (st.owner v.0) self.old part → IsSeenList seen.now f →
            AreGatheredAt st (st.owner v.0) v.0 f part →
            let p = P.meaning program.now in let lent = lent_full f part in
            IfOk result (λ made. (u : ℕ) →
            full_wakes st.graph p lent v.0 u ≡ is_woken made.woken (halves_of st.graph v.0) u) }
        ensures row { let many = length (halves_of division.now.graph.now v.0) in
            IfOk result (λ made. length made.row.items ≡ many + many) }
        ensures numbers { length self.new.numbers.items ≡ length self.old.numbers.items }
        ensures edges { self.new.edges ≡ self.old.edges }
        ensures tasks { self.new.tasks ≡ self.old.tasks }
    {
        write_others(&mut self.numbers, division.owner, me, seen);
        make_update(alloc, division, program, v, &self.numbers, &self.edges)
    }

    /// Writes what `make` made of the update of v at its home. It takes no memory.
    pub fn write(&mut self, division: &Division<'_>, v: Vertex, made: &MadeUpdate)
        requires vertex { v.0 < size division.now.graph.now }
        requires count { length self.old.numbers.items ≡ size division.now.graph.now }
        requires edge_count { length self.old.edges.items ≡ length division.now.graph.now.edges }
        requires task_count { length self.old.tasks.items ≡ size division.now.graph.now }
        requires row { let many = length (halves_of division.now.graph.now v.0) in
            length made.now.row.items ≡ many + many }
        ensures updated { (st : Setting) (p : FullUpdate) (part : FullPart) (s : ScopeId) (f : ℕ →
            Option ℕ) (entry : Entry) → IsDividedAs st division.now →
            let me = st.owner v.0 in HasNumbers st me self.old part →
            HasGathered f self.old.numbers.items → AreOfScope st v.0 f →
            let lent = lent_full f part in let after = after_full st.graph p lent v.0 in
            IsMade st.graph after v.0 made.now.centre made.now.row.items →
            ((u : ℕ) → full_wakes st.graph p lent v.0 u
            ≡ is_woken made.now.woken (halves_of st.graph v.0) u) →
            HasNumbers st me self.new (updated_full st p me s v.0 lent entry part) }
        ensures numbers { length self.new.numbers.items ≡ length self.old.numbers.items }
        ensures edges { length self.new.edges.items ≡ length self.old.edges.items }
        ensures tasks { length self.new.tasks.items ≡ length self.old.tasks.items }
    {
        let halves = division.graph.halves(v);
        write_made(halves, v, made, &mut self.numbers, &mut self.edges);
        let me = division.owner_of(v);
        finish(&mut self.tasks, halves, division.owner, me, v, made.woken);
    }
}

/// Vertex v is a task no more, and those of this machine are that its update wakes.
fn finish(
    tasks: &mut [bool],
    halves: &[Half],
    owner: &[MachineNo],
    me: MachineNo,
    v: Vertex,
    woken: Woken,
)
    requires vertex { v.0 < length tasks.old }
    requires ends { (i : ℕ) → i < length halves.now →
        (nth_half halves.now i).other.0 < length tasks.old }
    requires owners { length owner.now ≡ length tasks.old }
    ensures count { length tasks.new ≡ length tasks.old }
    ensures marked { (u : ℕ) → u < length tasks.old → is_marked tasks.new u
        ≡ (wakes_own (owner_in owner.now) me.0 woken halves.now
        u || (is_marked tasks.old u && not (u == v.0))) }
{
    tasks[v.0 as usize] = false;
    for half in halves {
        let is_own = owner[half.other.0 as usize].0 == me.0;
        mark(tasks, half.other, is_own && is_woken_along(woken, half.out));
    }
}

/// Marks a vertex, if this says so.
fn mark(marks: &mut [bool], u: Vertex, yes: bool)
    requires { u.0 < length marks.old }
    ensures count { length marks.new ≡ length marks.old }
    ensures marked { (x : ℕ) → x < length marks.old →
        is_marked marks.new x ≡ ((yes && u.0 == x) || is_marked marks.old x) }
{
    if yes {
        marks[u.0 as usize] = true;
    }
}

/// Whether an update wakes the other end of an edge, which leads out of its vertex or not.
pub fn is_woken_along(woken: Woken, out: bool) -> bool
    ensures { result ≡ is_woken_along woken out }
{
    match woken {
        Woken::Nobody => false,
        Woken::Ahead => out,
        Woken::Around => true,
    }
}

/// Writes numbers of vertices, one after another.
fn write_vertices(numbers: &mut [u64], pairs: &[(Vertex, u64)])
    requires { All (λ pair. pair.0.0 < length numbers.old) pairs.now }
    ensures count { length numbers.new ≡ length numbers.old }
    ensures written { (x : ℕ) → x < length numbers.old →
        slice_index numbers.new x ≡ vertex_after pairs.now x (slice_index numbers.old x) }
{
    for pair in pairs {
        numbers[pair.0.0 as usize] = pair.1;
    }
}

/// Writes numbers of vertices that others own, one after another.
fn write_others(numbers: &mut [u64], owner: &[MachineNo], me: MachineNo, pairs: &[(Vertex, u64)])
    requires low { All (λ pair. pair.0.0 < length numbers.old) pairs.now }
    requires owners { length owner.now ≡ length numbers.old }
    ensures count { length numbers.new ≡ length numbers.old }
    ensures own { (x : ℕ) → x < length numbers.old → owner_in owner.now x ≡ me.0 →
        slice_index numbers.new x ≡ slice_index numbers.old x }
    ensures others { (x : ℕ) → x < length numbers.old → owner_in owner.now x ≢ me.0 →
        slice_index numbers.new x ≡ vertex_after pairs.now x (slice_index numbers.old x) }
{
    for pair in pairs {
        write_other(numbers, owner, me, pair.0, pair.1);
    }
}

/// Writes the number of x, if another machine owns it.
fn write_other(numbers: &mut [u64], owner: &[MachineNo], me: MachineNo, x: Vertex, number: u64)
    requires low { x.0 < length numbers.old }
    requires owners { length owner.now ≡ length numbers.old }
    ensures count { length numbers.new ≡ length numbers.old }
    ensures own { (y : ℕ) → y < length numbers.old → owner_in owner.now y ≡ me.0 →
        slice_index numbers.new y ≡ slice_index numbers.old y }
    ensures others { (y : ℕ) → y < length numbers.old → owner_in owner.now y ≢ me.0 →
        slice_index numbers.new y ≡ (if x.0 == y then number else slice_index numbers.old y) }
{
    if owner[x.0 as usize].0 != me.0 {
        numbers[x.0 as usize] = number;
    }
}

/// Writes numbers of edges, one after another.
fn write_edges(edges: &mut [u64], pairs: &[(EdgeNo, u64)])
    requires { All (λ pair. pair.0.0 < length edges.old) pairs.now }
    ensures count { length edges.new ≡ length edges.old }
    ensures written { (e : ℕ) → e < length edges.old →
        slice_index edges.new e ≡ edge_after pairs.now e (slice_index edges.old e) }
{
    for pair in pairs {
        edges[pair.0.0 as usize] = pair.1;
    }
}

/// Marks each of these vertices.
fn mark_all(marks: &mut [bool], list: &[Vertex])
    requires { All (λ u. u.0 < length marks.old) list.now }
    ensures count { length marks.new ≡ length marks.old }
    ensures marked { (u : ℕ) → u < length marks.old →
        is_marked marks.new u ≡ (is_listed list.now u || is_marked marks.old u) }
{
    for u in list {
        marks[u.0 as usize] = true;
    }
}
