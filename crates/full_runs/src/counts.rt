//! How many updates each machine made.
ghost use Rattle.std.specs.Prelude.{◌≡◌, ℕ, ◌+◌, ◌<◌, ◌^◌, if◌then◌else◌, length, slice_index, count_by, IfOk};
ghost use Rattle.gl_base.specs.Lists.{AreEach};
ghost use Rattle.full_runs.specs.FullEnds.{is_of};

use gl_base::{Entry, NoMemory};
use std::alloc::Global;

/// For each of so many machines, how many updates of the order it made.
pub fn counts_by_machine(
    alloc: Global,
    machines: u16,
    order: &[Entry],
) -> Result<Vec<u64>, NoMemory>
    ensures { IfOk result (λ done.
        AreEach machines (λ a count. count ≡ count_by (is_of a) order.now) done.items) }
{
    let mut done = Vec::from_elem(alloc, 0, machines as usize)?;
    count_all(&mut done, order);
    Ok(done)
}

/// Adds to each number how many updates of the order the machine of its place made.
fn count_all(done: &mut [u64], order: &[Entry])
    requires { (a : ℕ) → a < length done.old → slice_index done.old a ≡ 0 }
    ensures as_many { length done.new ≡ length done.old }
    ensures counted { (a : ℕ) → a < length done.old →
        slice_index done.new a ≡ count_by (is_of a) order.now }
{
    for entry in order {
        count(done, entry);
    }
}

/// One update more of the machine of the entry, if it is one of those that are counted.
fn count(done: &mut [u64], entry: &Entry)
    requires { (a : ℕ) → a < length done.old → slice_index done.old a < 2 ^ 63 }
    ensures as_many { length done.new ≡ length done.old }
    ensures counted { (a : ℕ) → a < length done.old → slice_index done.new a
        ≡ slice_index done.old a + (if is_of a entry.now then 1 else 0) }
{
    if let Entry::Go { machine, .. } = entry {
        let place = machine.0 as usize;
        if place < done.len() {
            done[place] += 1;
        }
    }
}
