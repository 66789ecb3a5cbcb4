//! What is read of the machines as an attempt ends.
ghost use Rattle.std.specs.Prelude.{◌<◌, ◌≡◌, ℕ, false, length, slice_index, slice_index_or, IfOk};
ghost use Rattle.engine_runs.specs.rollback.Failing.{InEachTrace};
ghost use Rattle.cluster_laws.specs.cluster_model.Events.{failures_in};

use cluster_step::trace::{SavingMachine, Trace};
use gl_base::{MachineNo, NoMemory};
use recovery::restarts::count_failed;
use std::alloc::Global;

/// How many machines have failed in this attempt.
pub(crate) fn failures_now<M: SavingMachine>(
    alloc: Global,
    trace: &Trace<M>,
) -> Result<usize, NoMemory>
    ensures { IfOk result (λ failures.
        InEachTrace M.represents trace.now (λ st o events c. failures ≡ failures_in st c)) }
{
    let flags = failed_flags(alloc, trace)?;
    Ok(count_failed(&flags))
}

/// Which machines have failed in this attempt.
fn failed_flags<M: SavingMachine>(alloc: Global, trace: &Trace<M>) -> Result<Vec<bool>, NoMemory>
    ensures many { IfOk result (λ flags.
        length flags.items ≡ length trace.now.now.machines.items) }
    ensures each { IfOk result (λ flags. (a : ℕ) → a < length trace.now.now.machines.items →
        InEachTrace M.represents trace.now (λ st o events c.
        slice_index_or flags.items a false ≡ (c.machine a).failed)) }
{
    let many = trace.machines();
    let mut flags = Vec::with_capacity(alloc, many)?;
    for m in 0..many {
        flags.push_reserved(trace.has_failed(MachineNo(m as u16)));
    }
    Ok(flags)
}

/// How many scopes each machine has admitted, in earlier attempts too.
pub(crate) fn serials<M: SavingMachine>(
    alloc: Global,
    trace: &Trace<M>,
) -> Result<Vec<u64>, NoMemory>
    ensures many { IfOk result (λ serials.
        length serials.items ≡ length trace.now.now.machines.items) }
    ensures each { IfOk result (λ serials. (a : ℕ) → a < length trace.now.now.machines.items →
        InEachTrace M.represents trace.now (λ st o events c.
        slice_index_or serials.items a 0 ≡ (c.machine a).part.serial)) }
{
    let many = trace.machines();
    let mut serials = Vec::with_capacity(alloc, many)?;
    for m in 0..many {
        serials.push_reserved(trace.machine(MachineNo(m as u16)).serial());
    }
    Ok(serials)
}
