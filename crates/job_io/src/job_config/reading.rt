//! The public call, and what it answers.
ghost use Rattle.std.specs.Prelude.{◌≡◌, Err, IfOk, Ok, Some, option_map};
ghost use Rattle.gl_base.specs.declared.job_faults.JobFault.{JobFault};
ghost use Rattle.gl_base.specs.declared.memory.OrNoMemory.{OrNoMemory};
ghost use Rattle.serde_json.specs.View.{view};
ghost use Rattle.job_io.specs.job_config.Jobs.{IsJob, job_fault, job_of, job_of_json};
ghost use Rattle.job_io.specs.job_config.Ranges.{IsInRanges};
ghost use Rattle.job_io.specs.job_config.Inner.FieldsViews.{fields_view};
ghost use Rattle.job_io.specs.job_config.Views.{job_view};

use crate::job_config::failures::read_failures;
use crate::job_config::fields::{Fields, read_fields};
use crate::job_config::keys::least_unknown;
use crate::job_config::values::KeyFault;
use gl_base::{FailureAt, Job, JobFault, MAX_JOB_BYTES, Name, OrNoMemory};
use serde_json::Value;
use std::alloc::{AllocError, Global};
use std::str;

/// Why no job was read: the first fault of the bytes, which are no job, or want of memory.
pub type JobReading = OrNoMemory<JobFault>;

/// A key's fault, as a fault of the job.
fn fault_of(fault: KeyFault) -> JobFault
    ensures { result ≡ job_fault fault }
{
    match fault {
        KeyFault::Missing(key) => JobFault::Missing(key),
        KeyFault::WrongKind(key) => JobFault::WrongKind(key),
        KeyFault::OutOfRange(key, value) => JobFault::OutOfRange(key, value),
    }
}

/// A name of its own that a text spells.
fn own_name(alloc: Global, text: &str) -> Result<Name, AllocError>
    ensures { IfOk result (λ name. name ≡ text.now) }
{
    Ok(Name::new(String::from_str(alloc, text)?))
}

/// The same of a text that may be absent.
fn own_optional_name(alloc: Global, text: Option<&str>) -> Result<Option<Name>, AllocError>
    ensures { IfOk result (λ name. name ≡ option_map (λ s. s.now) text.entry) }
{
    match text {
        None => Ok(None),
        Some(text) => Ok(Some(own_name(alloc, text)?)),
    }
}

/// The job of its values.
fn build(alloc: Global, fields: &Fields, failures: Vec<FailureAt>) -> Result<Job, AllocError>
    ensures { IfOk result (λ j. job_view j
        ≡ record { fields = fields_view fields.now; failures = failures.items }) }
{
    Ok(Job {
        vertices: own_name(alloc, fields.input.vertices)?,
        edges: own_name(alloc, fields.input.edges)?,
        directed: fields.input.directed,
        algorithm: fields.input.algorithm,
        source: fields.input.source,
        engine: fields.settings.engine,
        machines: fields.settings.machines,
        atoms: fields.settings.atoms,
        pipeline: fields.settings.pipeline,
        budget: fields.settings.budget,
        window: fields.settings.window,
        store: own_optional_name(alloc, fields.places.store)?,
        atoms_at: own_optional_name(alloc, fields.places.atoms_at)?,
        order: own_optional_name(alloc, fields.places.order)?,
        failures,
    })
}

/// The job that a value says.
fn read_value(alloc: Global, value: &Value) -> Result<Job, JobReading>
    ensures job { IfOk result (λ j. job_of_json (Some (view value.now)) ≡ Ok (job_view j)) }
    ensures ranges { IfOk result (λ j. IsInRanges (job_view j)) }
    ensures fault { (f : JobFault) → result ≡ Err (OrNoMemory.Fault f)
        → job_of_json (Some (view value.now)) ≡ Err f }
{
    let Some(members) = value.as_object() else {
        return Err(JobReading::Fault(JobFault::NotJson));
    };
    if let Some(key) = least_unknown(members) {
        let name = own_name(alloc, key.as_str())?;
        return Err(JobReading::Fault(JobFault::UnknownKey(name)));
    }
    let fields = match read_fields(value) {
        Ok(fields) => fields,
        Err(fault) => return Err(JobReading::Fault(fault_of(fault))),
    };
    match read_failures(alloc, fields.settings.machines, value.get("failures")) {
        Ok(failures) => Ok(build(alloc, &fields, failures)?),
        Err(OrNoMemory::Fault(fault)) => Err(JobReading::Fault(fault_of(fault))),
        Err(OrNoMemory::NoMemory) => Err(JobReading::NoMemory),
    }
}

/// Reads a job.
///
/// The first fault is found in this order: too many bytes, no JSON object, the least key in byte
/// order that no job may have, and then key by key in the order of `gl_base::Key` that it is
/// absent, of another kind or out of its range. `serde_json` says what is JSON; of a key that
/// stands twice it keeps the last value.
pub fn read_job(alloc: Global, bytes: &[u8]) -> Result<Job, JobReading>
    ensures job { IfOk result (λ j. IsJob bytes.now (job_view j)) }
    ensures ranges { IfOk result (λ j. IsInRanges (job_view j)) }
    ensures fault { (f : JobFault) → result ≡ Err (OrNoMemory.Fault f) → job_of bytes.now ≡ Err f }
{
    if bytes.len() > MAX_JOB_BYTES {
        return Err(JobReading::Fault(JobFault::TooLong));
    }
    let Ok(text) = str::from_utf8(bytes) else {
        return Err(JobReading::Fault(JobFault::NotJson));
    };
    match Value::from_str(alloc, text) {
        Ok(value) => read_value(alloc, &value),
        Err(error) if error.is_memory() => Err(JobReading::NoMemory),
        Err(_) => Err(JobReading::Fault(JobFault::NotJson)),
    }
}
