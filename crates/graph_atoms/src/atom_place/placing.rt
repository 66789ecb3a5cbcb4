//! Atoms on machines.
ghost use Rattle.std.specs.Prelude.{◌≡◌, ◌^◌, ◌<◌, ◌≤◌, length, map, sum, replicate, IfOk};
ghost use Rattle.graph_atoms.specs.atom_place.Placing.{IsFalling, IsPlacing, IsBalanced};

use crate::atom_place::falling::by_falling_weight;
use crate::atom_place::loads::least_loaded;
use gl_base::{MachineNo, NoMemory};
use std::alloc::Global;

/// The machine of each atom. Atoms are taken by falling weight, the lower number first at a tie,
/// and each goes to the least loaded machine, the lower at a tie. So no machine carries more than
/// the mean load and the heaviest atom.
pub fn place(alloc: Global, weights: &[u64], machines: u16) -> Result<Vec<MachineNo>, NoMemory>
    requires some { 1 ≤ machines }
    requires fits { sum weights.now < 2 ^ 64 }
    ensures placed { IfOk result (λ owners.
        IsPlacing weights.now machines (map (λ m. m.0) owners.items)) }
    ensures balanced { IfOk result (λ owners.
        IsBalanced weights.now machines (map (λ m. m.0) owners.items)) }
{
    let order = by_falling_weight(alloc, weights)?;
    let mut owners = vec![in alloc; MachineNo(0); weights.len()]?;
    let mut loads = vec![in alloc; 0; machines as usize]?;
    place_in_turn(weights, &order, &mut owners, &mut loads);
    Ok(owners)
}

/// Places the atoms in their order on machines that carry nothing.
fn place_in_turn(weights: &[u64], order: &[usize], owners: &mut [MachineNo], loads: &mut [u64])
    requires falling { IsFalling weights.now order.now }
    requires fits { sum weights.now < 2 ^ 64 }
    requires each { length owners.old ≡ length weights.now }
    requires some { 0 < length loads.old }
    requires few { length loads.old ≤ 65536 }
    requires empty { loads.old ≡ replicate (length loads.old) 0 }
    ensures placed { IsPlacing weights.now (length loads.old) (map (λ m. m.0) owners.new) }
    ensures balanced { IsBalanced weights.now (length loads.old) (map (λ m. m.0) owners.new) }
{
    for atom in order {
        let machine = least_loaded(loads);
        owners[*atom] = MachineNo(machine as u16);
        loads[machine] += weights[*atom];
    }
}
