//! The machine of each vertex.
ghost use Rattle.std.specs.Prelude.{◌≡◌, ℕ, ◌<◌, length, slice_index, All, IfOk};
ghost use Rattle.placement.specs.graphs.Placed.{atom_numbers, placed_owner};

use gl_base::{AtomNo, MachineNo, NoMemory};
use std::alloc::Global;

/// For each vertex the atom with the number of its machine, where `of` says in which atom each
/// vertex is, and `owner` on which machine each atom.
pub fn vertex_owners(
    alloc: Global,
    of: &[AtomNo],
    owner: &[MachineNo],
    machines: u16,
) -> Result<Vec<AtomNo>, NoMemory>
    requires atoms { All (λ a. a.0 < length owner.now) of.now }
    requires machines { All (λ m. m.0 < machines) owner.now }
    ensures count { IfOk result (λ owners. length owners.items ≡ length of.now) }
    ensures below { IfOk result (λ owners. All (λ a. a.0 < machines) owners.items) }
    ensures each { IfOk result (λ owners. (v : ℕ) → v < length of.now →
        slice_index (atom_numbers owners.items) v ≡ placed_owner of.now owner.now v) }
{
    let mut owners = Vec::with_capacity(alloc, of.len())?;
    for atom in of {
        owners.push(AtomNo(owner[atom.0 as usize].0))?;
    }
    Ok(owners)
}
