//! How many updates each machine made.
ghost use Rattle.std.specs.Prelude.{◌≡◌, ℕ, ◌+◌, ◌^◌, ◌<◌, length, count_by, slice_index, if◌then◌else◌, IfOk};
ghost use Rattle.cluster_laws.specs.merged_logs.Merges.{is_of};

use gl_base::{Entry, NoMemory};
use std::alloc::Global;

/// How many updates of an order each of so many machines made.
pub fn count_by_machine(alloc: Global, order: &[Entry], machines: u16) -> Result<Vec<u64>, NoMemory>
    ensures count { IfOk result (λ counts. length counts.items ≡ machines) }
    ensures each { IfOk result (λ counts. (a : ℕ) → a < machines →
        slice_index counts.items a ≡ count_by (is_of a) order.now) }
{
    let mut counts = Vec::from_elem(alloc, 0u64, machines as usize)?;
    for entry in order {
        count_entry(*entry, &mut counts);
    }
    Ok(counts)
}

/// Counts an update for its machine, where the machine is one of those that are counted.
fn count_entry(entry: Entry, counts: &mut [u64])
    requires { (a : ℕ) → slice_index counts.old a + 1 < 2 ^ 64 }
    ensures { (a : ℕ) → a < length counts.old →
        slice_index counts.new a ≡ slice_index counts.old a + (if is_of a entry then 1 else 0) }
{
    if let Entry::Go { machine, .. } = entry {
        let place = machine.0 as usize;
        if place < counts.len() {
            counts[place] += 1;
        }
    }
}
