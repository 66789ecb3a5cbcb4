//! The failures that a job orders.
ghost use Rattle.std.specs.Prelude.{◌≡◌, [], Err, IfOk, None, Ok, Some, filter_map, if◌then◌else◌, is_some, map, option_map};
ghost use Rattle.std.specs.List.{list_all};
ghost use Rattle.gl_base.specs.declared.memory.OrNoMemory.{OrNoMemory};
ghost use Rattle.job_io.specs.declared.job_config.values.KeyFault.{KeyFault};
ghost use Rattle.serde_json.specs.View.{view};
ghost use Rattle.job_io.specs.job_config.Failures.{failure_in, failures_of, first_faulty, is_faulty};

use crate::job_config::values::KeyFault;
use gl_base::{FailureAt, Key, MachineNo, OrNoMemory};
use serde_json::Value;
use std::alloc::{AllocError, Global};

/// How many failures a job may order.
const MAX_FAILURES: usize = 64;

/// The greatest count of updates after which a machine may fail.
const MAX_AFTER: u64 = 16777216;

/// An object of exactly the two keys, each a whole number. A machine above the greatest `u16` is
/// out of each range, and counts as it.
fn read_failure(value: &Value) -> Option<FailureAt>
    ensures { result ≡ failure_in (view value.now) }
{
    let members = value.as_object()?;
    if members.len() != 2 {
        return None;
    }
    let machine = value.get("machine")?.as_u64()?;
    let after = value.get("after")?.as_u64()?;
    Some(FailureAt {
        machine: MachineNo(machine.min(65535) as u16),
        after,
    })
}

/// The failures that the values are, or nothing where one is none.
fn read_each(alloc: Global, values: &[Value]) -> Result<Option<Vec<FailureAt>>, AllocError>
    ensures { IfOk result (λ o. option_map (λ v. v.items) o
        ≡ (if list_all (λ d. is_some (failure_in d)) (map view values.now)
        then Some (filter_map failure_in (map view values.now)) else None)) }
{
    let mut failures = Vec::new(alloc);
    for value in values {
        match read_failure(value) {
            None => return Ok(None),
            Some(failure) => failures.push(failure)?,
        }
    }
    Ok(Some(failures))
}

/// Whether a failure is out of its range after those before it.
fn is_out_of_range(machines: u16, earlier: &[FailureAt], failure: &FailureAt) -> bool
    ensures { result ≡ is_faulty machines earlier.now failure.now }
{
    earlier.len() >= MAX_FAILURES
        || failure.machine.0 >= machines
        || failure.after == 0
        || failure.after > MAX_AFTER
        || earlier.contains(failure)
}

/// The place of the first failure that is out of its range.
fn first_out_of_range(machines: u16, failures: &[FailureAt]) -> Option<usize>
    ensures { result ≡ first_faulty machines [] failures.now }
{
    for (place, failure) in failures.iter().enumerate() {
        if is_out_of_range(machines, &failures[..place], failure) {
            return Some(place);
        }
    }
    None
}

/// The failures, where there are any.
pub fn read_failures(
    alloc: Global,
    machines: u16,
    value: Option<&Value>,
) -> Result<Vec<FailureAt>, OrNoMemory<KeyFault>>
    ensures ok { IfOk result
        (λ v. failures_of machines (option_map (λ x. view x.now) value.entry) ≡ Ok v.items) }
    ensures ranges { IfOk result (λ v. first_faulty machines [] v.items ≡ None) }
    ensures fault { (f : KeyFault) → result ≡ Err (OrNoMemory.Fault f)
        → failures_of machines (option_map (λ x. view x.now) value.entry) ≡ Err f }
{
    let Some(value) = value else {
        return Ok(Vec::new(alloc));
    };
    let wrong = OrNoMemory::Fault(KeyFault::WrongKind(Key::Failures));
    let Some(values) = value.as_array() else {
        return Err(wrong);
    };
    let Some(failures) = read_each(alloc, values)? else {
        return Err(wrong);
    };
    match first_out_of_range(machines, &failures) {
        None => Ok(failures),
        Some(place) => Err(OrNoMemory::Fault(KeyFault::OutOfRange(Key::Failures, place as u64))),
    }
}
