//! The loads of machines.
ghost use Rattle.std.specs.Prelude.{◌<◌, length, slice_index};
ghost use Rattle.graph_atoms.specs.atom_place.Placing.{IsLeastLoaded};

/// The machine with the least load, the lowest of them.
pub fn least_loaded(loads: &[u64]) -> usize
    requires { 0 < length loads.now }
    ensures { IsLeastLoaded (slice_index loads.now) (length loads.now) result }
{
    let mut least = 0;
    for (machine, load) in loads.iter().enumerate() {
        if *load < loads[least] {
            least = machine;
        }
    }
    least
}
