//! Which machines a scope visits, and which locks it takes there.
ghost use Rattle.std.specs.Prelude.{◌≡◌, ◌⊎◌, ℕ, ◌<◌, ◌≤◌, ◌==◌, ◌++◌, [], ◌∷◌, if◌then◌else◌, false, length, map, slice_index_or, All, IfOk, OnOk};
ghost use Rattle.std.specs.List.{list_any};
ghost use Rattle.graph_core.specs.DataGraph.{size};
ghost use Rattle.cluster_laws.specs.cluster_core.Scopes.{machines_from};
ghost use Rattle.cluster_laws.specs.cluster_core.Settings.{Setting};
ghost use Rattle.full_cluster.specs.Given.{IsDividedAs};
ghost use Rattle.full_cluster.specs.Orders.{IsLockOrder};
ghost use Rattle.full_cluster.specs.Owners.{owner_in};
ghost use Rattle.full_cluster.specs.Inner.Ways.{has_own_of, is_own_of, passing};

use crate::Division;
use gl_base::{MachineNo, NoMemory, Vertex};
use graph_core::Graph;
use std::alloc::Global;

impl Division<'_> {
    /// The vertices of a machine in the scope of v, in the order in which the scope takes their
    /// locks.
    pub fn lock_order(
        &self,
        alloc: Global,
        v: Vertex,
        machine: MachineNo,
    ) -> Result<Vec<Vertex>, NoMemory>
        requires { v.0 < size self.now.graph.now }
        ensures within { let g = self.now.graph.now in
            IfOk result (λ part. All (λ x. x.0 < size g) part.items) }
        ensures order { (st : Setting) → IsDividedAs st self.now → IfOk result (λ part.
            IsLockOrder st v.0 machine.0 (map (λ x. x.0) part.items)) }
    {
        own_part(alloc, self.graph, self.owner, v, machine)
    }

    /// The machines that own a vertex in the scope of v, in the order in which the scope visits
    /// them. The owners are below `machines`.
    pub fn machine_order(
        &self,
        alloc: Global,
        v: Vertex,
        machines: u16,
    ) -> Result<Vec<MachineNo>, NoMemory>
        requires vertex { v.0 < size self.now.graph.now }
        requires low { All (λ m. m.0 < machines) self.now.owner.now }
        ensures within { IfOk result (λ list. All (λ m. m.0 < machines) list.items) }
        ensures order { (st : Setting) → IsDividedAs st self.now → st.machines ≡ machines →
            IfOk result (λ list. map (λ m. m.0) list.items ≡ machines_from st v.0 0) }
    {
        machines_of(alloc, self.graph, self.owner, v, machines)
    }

    /// A mark for each machine: it is set where the machine owns a vertex in the scope of v. The
    /// owners are below `machines`.
    pub(crate) fn machine_marks(
        &self,
        alloc: Global,
        v: Vertex,
        machines: u16,
    ) -> Result<Vec<bool>, NoMemory>
        requires vertex { v.0 < size self.now.graph.now }
        requires low { All (λ m. m.0 < machines) self.now.owner.now }
        ensures count { IfOk result (λ marks. length marks.items ≡ machines) }
        ensures marked { IfOk result (λ marks. (a : ℕ) → a < machines →
            slice_index_or marks.items a false
            ≡ has_own_of self.now.graph.now (owner_in self.now.owner.now) v.0 a) }
    {
        marks_of(alloc, self.graph, self.owner, v, machines)
    }
}

/// The vertices of a machine in the scope of v, ascending.
fn own_part(
    alloc: Global,
    graph: &Graph,
    owner: &[MachineNo],
    v: Vertex,
    machine: MachineNo,
) -> Result<Vec<Vertex>, NoMemory>
    requires vertex { v.0 < size graph.now }
    requires owners { length owner.now ≡ size graph.now }
    ensures { IfOk result (λ part. map (λ x. x.0) part.items
        ≡ passing (is_own_of graph.now (owner_in owner.now) v.0 machine.0) 0 (size graph.now)) }
{
    let mut near = Vec::new(alloc);
    graph.list_neighbours(v, &mut near)?;
    let mut part = Vec::new(alloc);
    let mut from = 0;
    let count = graph.n();
    for u in &near {
        push_between(&mut part, owner, v, machine, (from, u.0))?;
        push_own(&mut part, owner, *u, machine)?;
        from = u.0 + 1;
    }
    push_between(&mut part, owner, v, machine, (from, count))?;
    Ok(part)
}

/// The vertex stands behind the others, if its number is within these bounds, and the machine owns
/// it.
fn push_between(
    part: &mut Vec<Vertex>,
    owner: &[MachineNo],
    x: Vertex,
    machine: MachineNo,
    bounds: (u32, u32),
) -> Result<(), NoMemory>
    requires { x.0 < length owner.now }
    ensures within { OnOk result (bounds.0 ≤ x.0 → x.0 < bounds.1 → part.new.items ≡ part.old.items
        ++ (if owner_in owner.now x.0 == machine.0 then x ∷ [] else [])) }
    ensures outside { OnOk result ((x.0 < bounds.0) ⊎ (bounds.1 ≤ x.0) →
        part.new.items ≡ part.old.items) }
{
    if x.0 < bounds.0 || bounds.1 <= x.0 {
        return Ok(());
    }
    push_own(part, owner, x, machine)
}

/// The vertex stands behind the others, if the machine owns it.
fn push_own(
    part: &mut Vec<Vertex>,
    owner: &[MachineNo],
    x: Vertex,
    machine: MachineNo,
) -> Result<(), NoMemory>
    requires { x.0 < length owner.now }
    ensures { OnOk result (part.new.items ≡ part.old.items
        ++ (if owner_in owner.now x.0 == machine.0 then x ∷ [] else [])) }
{
    if owner[x.0 as usize].0 == machine.0 {
        part.push(x)?;
    }
    Ok(())
}

/// The machines that own a vertex in the scope of v, ascending.
fn machines_of(
    alloc: Global,
    graph: &Graph,
    owner: &[MachineNo],
    v: Vertex,
    machines: u16,
) -> Result<Vec<MachineNo>, NoMemory>
    requires vertex { v.0 < size graph.now }
    requires owners { length owner.now ≡ size graph.now }
    requires low { All (λ m. m.0 < machines) owner.now }
    ensures { IfOk result (λ list. map (λ m. m.0) list.items
        ≡ passing (has_own_of graph.now (owner_in owner.now) v.0) 0 machines) }
{
    let marks = marks_of(alloc, graph, owner, v, machines)?;
    list_marked(alloc, &marks)
}

/// Marks for so many machines: each that owns a vertex in the scope of v is marked.
fn marks_of(
    alloc: Global,
    graph: &Graph,
    owner: &[MachineNo],
    v: Vertex,
    machines: u16,
) -> Result<Vec<bool>, NoMemory>
    requires vertex { v.0 < size graph.now }
    requires owners { length owner.now ≡ size graph.now }
    requires low { All (λ m. m.0 < machines) owner.now }
    ensures count { IfOk result (λ marks. length marks.items ≡ machines) }
    ensures marked { IfOk result (λ marks. (a : ℕ) → a < machines → slice_index_or marks.items a false
        ≡ has_own_of graph.now (owner_in owner.now) v.0 a) }
{
    let mut near = Vec::new(alloc);
    graph.list_neighbours(v, &mut near)?;
    near.push(v)?;
    owner_marks(alloc, owner, &near, machines)
}

/// Marks for so many machines: each that owns one of these vertices is marked.
fn owner_marks(
    alloc: Global,
    owner: &[MachineNo],
    vertices: &[Vertex],
    machines: u16,
) -> Result<Vec<bool>, NoMemory>
    requires ends { All (λ u. u.0 < length owner.now) vertices.now }
    requires low { All (λ m. m.0 < machines) owner.now }
    ensures count { IfOk result (λ marks. length marks.items ≡ machines) }
    ensures marked { IfOk result (λ marks. (a : ℕ) → a < machines → slice_index_or marks.items a false
        ≡ list_any (λ u. owner_in owner.now u.0 == a) vertices.now) }
{
    let mut marks = Vec::from_elem(alloc, false, machines as usize)?;
    for u in vertices {
        let machine = owner[u.0 as usize];
        marks[machine.0 as usize] = true;
    }
    Ok(marks)
}

/// The machines that are marked, ascending.
fn list_marked(alloc: Global, marks: &[bool]) -> Result<Vec<MachineNo>, NoMemory>
    requires { length marks.now < 65536 }
    ensures { IfOk result (λ list. map (λ m. m.0) list.items
        ≡ passing (λ a. slice_index_or marks.now a false) 0 (length marks.now)) }
{
    let mut list = Vec::new(alloc);
    for a in 0..marks.len() {
        push_marked(&mut list, MachineNo(a as u16), marks[a])?;
    }
    Ok(list)
}

/// The machine stands behind the others, if it is marked.
fn push_marked(
    list: &mut Vec<MachineNo>,
    machine: MachineNo,
    is_marked: bool,
) -> Result<(), NoMemory>
    ensures { OnOk result (list.new.items ≡ list.old.items
        ++ (if is_marked then machine ∷ [] else [])) }
{
    if is_marked {
        list.push(machine)?;
    }
    Ok(())
}
