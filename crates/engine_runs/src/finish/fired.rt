//! The failures that fired.
ghost use Rattle.std.specs.Prelude.{◌≡◌, ◌^◌, ◌≤◌, length, nat_le, slice_index_or, IfOk};
ghost use Rattle.engine_runs.specs.finish.Gathered.{reached_places};

use gl_base::{FailureAt, NoMemory};
use std::alloc::Global;

/// The places of the failures whose machines have made as many updates as they name, where `done`
/// has how many each has made.
pub(crate) fn fired_places(
    alloc: Global,
    failures: &[FailureAt],
    done: &[u64],
) -> Result<Vec<u16>, NoMemory>
    requires { length failures.now ≤ 65536 }
    ensures { IfOk result (λ fired.
        fired.items ≡ reached_places (λ m. slice_index_or done.now m 0) 0 failures.now) }
{
    let mut fired = Vec::new(alloc);
    for place in 0..failures.len() {
        if has_fired(&failures[place], done) {
            fired.push(place as u16)?;
        }
    }
    Ok(fired)
}

/// Whether the failure's machine has made as many updates as it names.
fn has_fired(failure: &FailureAt, done: &[u64]) -> bool
    ensures { result ≡ nat_le failure.now.after (slice_index_or done.now failure.now.machine.0 0) }
{
    let place = failure.machine.0 as usize;
    let made = if place < done.len() { done[place] } else { 0 };
    failure.after <= made
}
