//! The atom of each vertex.
ghost use Rattle.std.specs.Prelude.{◌≡◌, ℕ, ◌*◌, ◌/◌, ◌^◌, ◌<◌, ◌≤◌, length, slice_index, All, IfOk};
ghost use Rattle.graph_core.specs.Growth.{numbers_of, ListsEach};
ghost use Rattle.graph_atoms.specs.atom_cut.Cuts.{atom_numbers, IsGrowthCut};

use gl_base::{AtomNo, NoMemory, Vertex};
use graph_core::{Graph, growth};
use std::alloc::Global;

/// Puts each vertex into one of so many atoms. The vertex at place p of n in growth order, from the
/// least vertex on, is in the atom p * atoms / n, rounded down.
pub fn atoms_by_growth(alloc: Global, graph: &Graph, atoms: u16) -> Result<Vec<AtomNo>, NoMemory>
    requires { 1 ≤ atoms }
    ensures cut { IfOk result (λ of. IsGrowthCut graph.now atoms (atom_numbers of.items)) }
    ensures below { IfOk result (λ of. All (λ a. a.0 < atoms) of.items) }
{
    let count = graph.n() as usize;
    let order = growth(alloc, graph, Vertex(0))?;
    let mut of = vec![in alloc; AtomNo(0); count]?;
    assign(&order, atoms, &mut of);
    Ok(of)
}

/// Puts the vertex at each place into the atom that the place falls to.
fn assign(order: &[Vertex], atoms: u16, of: &mut [AtomNo])
    requires some { 1 ≤ atoms }
    requires few { length of.old < 2 ^ 32 }
    requires once { ListsEach (length of.old) (numbers_of order.now) }
    requires below { All (λ a. a.0 < atoms) of.old }
    ensures place { (p : ℕ) → p < length of.old →
        slice_index (atom_numbers of.new) (slice_index (numbers_of order.now) p) ≡
        p * atoms / length of.old }
    ensures below { All (λ a. a.0 < atoms) of.new }
{
    for (place, vertex) in order.iter().enumerate() {
        of[vertex.0 as usize] = fallen(place, atoms, of.len());
    }
}

/// The atom that a place of so many falls to.
fn fallen(place: usize, atoms: u16, count: usize) -> AtomNo
    requires inside { place < count }
    requires few { count < 2 ^ 32 }
    requires some { 1 ≤ atoms }
    ensures value { result.0 ≡ place * atoms / count }
    ensures below { result.0 < atoms }
{
    AtomNo((place * atoms as usize / count) as u16)
}
