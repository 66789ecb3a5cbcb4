//! Where a plan places a graph, and at which vertex a run begins.
ghost use Rattle.std.specs.Prelude.{◌≡◌, ℕ, ◌<◌, ◌≤◌, length, slice_index, All, IfOk};
ghost use Rattle.graph_atoms.specs.atom_gather.Cuts.{IsAssignment};
ghost use Rattle.graph_atoms.specs.declared.atom_gather.cuts.Cut.{Cut};
ghost use Rattle.placement.specs.graphs.Placed.{atom_numbers, machine_numbers};
ghost use Rattle.placement.specs.graphs.Weights.{IsPlacing, atom_weights};
ghost use Rattle.graph_core.specs.DataGraph.{IsDataGraph, size};
ghost use Rattle.placement.specs.graphs.Beginnings.{IsBaseFor};
ghost use Rattle.placement.specs.plans.Plans.{CanBeCut, IsInRange, IsPlaced};

use crate::graphs::{Placement, owners_by_weight, placement_by_cut};
use crate::plans::runs::RunPlan;
use gl_base::{AtomNo, Base, MachineNo, NoMemory, Vertex};
use graph_atoms::atom_gather::Cut;
use graph_core::Graph;
use seq_run::least_start;
use std::alloc::Global;

/// Where the plan places the graph, which is cut so. One machine has all of it, so it isn't cut.
pub fn placement_of(
    alloc: Global,
    graph: &Graph,
    cut: &Cut,
    plan: RunPlan,
) -> Result<Placement, NoMemory>
    requires cut { CanBeCut graph.now cut.now }
    requires plan { IsInRange plan }
    ensures { IfOk result (IsPlaced graph.now cut.now plan) }
{
    if plan.machines == 1 {
        whole_placement(alloc, graph, plan)
    } else {
        cut_placement(alloc, graph, cut, plan)
    }
}

/// The graph cut so, and its atoms placed by what they weigh.
fn cut_placement(
    alloc: Global,
    graph: &Graph,
    cut: &Cut,
    plan: RunPlan,
) -> Result<Placement, NoMemory>
    requires cut { CanBeCut graph.now cut.now }
    requires plan { IsInRange plan }
    requires several { 1 < plan.machines }
    ensures { IfOk result (IsPlaced graph.now cut.now plan) }
{
    match cut {
        Cut::Grown(atoms) => placement_by_cut(alloc, graph, *atoms, plan.machines),
        Cut::Told { atoms, of } => told_placement(alloc, graph, *atoms, of, plan.machines),
    }
}

/// Each vertex in the atom that was told, of so many, and these placed by what they weigh.
fn told_placement(
    alloc: Global,
    graph: &Graph,
    atoms: u16,
    told: &[AtomNo],
    machines: u16,
) -> Result<Placement, NoMemory>
    requires told { IsAssignment graph.now atoms (atom_numbers told.now) }
    requires some { 1 ≤ machines }
    ensures of { IfOk result (λ made. made.of.items ≡ told.now) }
    ensures placing { IfOk result (λ made.
        IsPlacing (atom_weights graph.now (atom_numbers told.now) atoms) machines
        (machine_numbers made.owner.items)) }
    ensures machines { IfOk result (λ made. All (λ m. m.0 < machines) made.owner.items) }
{
    let owner = owners_by_weight(alloc, graph, told, atoms, machines)?;
    let mut of = Vec::new(alloc);
    of.extend_from_slice(told)?;
    Ok(Placement { of, owner })
}

/// All vertices in one atom, and that on the one machine.
fn whole_placement(alloc: Global, graph: &Graph, plan: RunPlan) -> Result<Placement, NoMemory>
    requires one { plan.machines ≡ 1 }
    ensures { (cut : Cut) → IfOk result (IsPlaced graph.now cut plan) }
{
    let of = Vec::from_elem(alloc, AtomNo(0), graph.n() as usize)?;
    let owner = Vec::from_elem(alloc, MachineNo(0), 1)?;
    Ok(Placement { of, owner })
}

/// The vertex at which the machine that owns it begins: of those that start with the least number
/// the first.
pub fn first_of(graph: &Graph, base: &Base) -> Vertex
    requires { IsBaseFor graph.now base.now }
    ensures graph { IsDataGraph graph.now }
    ensures inside { 0 < size graph.now → result.0 < size graph.now }
    ensures least { (v : ℕ) → v < size graph.now →
        slice_index base.now.values.items result.0 ≤ slice_index base.now.values.items v }
    ensures first { (v : ℕ) → v < result.0 →
        slice_index base.now.values.items result.0 < slice_index base.now.values.items v }
{
    least_start(&base.values, graph.n())
}
