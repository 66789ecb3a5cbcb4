//! Atoms by falling weight.
ghost use Rattle.std.specs.Prelude.{◌≡◌, map, IfOk};
ghost use Rattle.graph_atoms.specs.atom_place.Placing.{IsFalling};
ghost use Rattle.graph_atoms.specs.atom_place.Inner.Ranks.{AreRanks};

use gl_base::NoMemory;
use std::alloc::Global;
use std::cmp::Reverse;

/// An atom with its weight. The heaviest is the least, and of two that weigh the same that of the
/// lower number.
#[derive(Clone, Copy, PartialEq, Eq, PartialOrd, Ord)]
pub struct Rank {
    pub weight: Reverse<u64>,
    pub atom: usize,
}

/// The numbers of the atoms with these weights, the heaviest first, and the lower first of two that
/// weigh the same.
pub fn by_falling_weight(alloc: Global, weights: &[u64]) -> Result<Vec<usize>, NoMemory>
    ensures { IfOk result (λ order. IsFalling weights.now order.items) }
{
    let mut ranks = ranks_of(alloc, weights)?;
    ranks.sort_unstable();
    atoms_of(alloc, &ranks)
}

/// The atoms in their order.
fn ranks_of(alloc: Global, weights: &[u64]) -> Result<Vec<Rank>, NoMemory>
    ensures { IfOk result (λ ranks. AreRanks weights.now ranks.items) }
{
    let mut ranks = Vec::with_capacity(alloc, weights.len())?;
    for (atom, weight) in weights.iter().enumerate() {
        ranks.push(Rank {
            weight: Reverse(*weight),
            atom,
        })?;
    }
    Ok(ranks)
}

/// The atoms of the ranks.
fn atoms_of(alloc: Global, ranks: &[Rank]) -> Result<Vec<usize>, NoMemory>
    ensures { IfOk result (λ atoms. atoms.items ≡ map (λ r. r.atom) ranks.now) }
{
    let atoms = ranks.iter().map(|rank| rank.atom).collect(alloc)?;
    Ok(atoms)
}
