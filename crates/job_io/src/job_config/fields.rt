//! The values of a job's keys but the failures.
ghost use Rattle.std.specs.Prelude.{◌≡◌, ◌≤◌, ◌*◌, Err, IfOk, MatchResult, Ok, option_map};
ghost use Rattle.gl_base.specs.declared.jobs.EngineKind.TheVariants.{Locking};
ghost use Rattle.serde_json.specs.View.{view};
ghost use Rattle.job_io.specs.job_config.Fields.{fields_of, order_of, source_of};
ghost use Rattle.job_io.specs.job_config.Ranges.{HasNumbers, HasSource};
ghost use Rattle.job_io.specs.job_config.Inner.FieldsViews.{fields_view, input_view, places_view};
ghost use Rattle.job_io.specs.job_config.Inner.Groups.{HasSettings, input_of, places_of, settings_of};
ghost use Rattle.job_io.specs.job_config.Values.{algorithm_in, engine_in, flag_in, required, or_default};

use crate::job_config::values::{
    KeyFault, number_or, optional_text, read_algorithm, read_engine, read_flag, read_number,
    required_text,
};
use gl_base::{Algorithm, EngineKind, Key, MAX_ID, MAX_NAME_BYTES};
use serde_json::Value;

/// The greatest length of the name under which atoms are kept, since numbers are added to it.
const MAX_ATOM_NAME_BYTES: usize = 200;

/// The greatest number of updates, and of updates between two snapshots.
const MAX_UPDATES: u64 = 16777216;

/// What a job says of its graph and its program.
#[derive(Drop)]
pub struct Input<'a> {
    pub vertices: &'a str,
    pub edges: &'a str,
    pub directed: bool,
    pub algorithm: Algorithm,
    pub source: Option<u64>,
}

/// What a job says of its engine.
#[derive(Drop)]
pub struct Settings {
    pub engine: EngineKind,
    pub machines: u16,
    pub atoms: u16,
    pub pipeline: u16,
    pub budget: u64,
    pub window: u32,
}

/// Where a job keeps what it writes.
#[derive(Drop)]
pub struct Places<'a> {
    pub store: Option<&'a str>,
    pub atoms_at: Option<&'a str>,
    pub order: Option<&'a str>,
}

/// What a job says but for its failures.
#[derive(Drop)]
pub struct Fields<'a> {
    pub input: Input<'a>,
    pub settings: Settings,
    pub places: Places<'a>,
}

/// The algorithm, which is needed.
fn required_algorithm(value: Option<&Value>) -> Result<Algorithm, KeyFault>
    ensures { result ≡ required Key.Algorithm algorithm_in (option_map (λ v.
        view v.now) value.entry) }
{
    match value {
        None => Err(KeyFault::Missing(Key::Algorithm)),
        Some(value) => read_algorithm(value),
    }
}

/// Whether edges go one way, which is needed.
fn required_directed(value: Option<&Value>) -> Result<bool, KeyFault>
    ensures { result ≡ required Key.Directed (flag_in Key.Directed)
        (option_map (λ v. view v.now) value.entry) }
{
    match value {
        None => Err(KeyFault::Missing(Key::Directed)),
        Some(value) => read_flag(Key::Directed, value),
    }
}

/// The source, which levels and paths need.
fn read_source(algorithm: Algorithm, value: Option<&Value>) -> Result<Option<u64>, KeyFault>
    ensures value { result ≡ source_of algorithm (option_map (λ v. view v.now) value.entry) }
    ensures source { IfOk result (HasSource algorithm) }
{
    match (algorithm, value) {
        (Algorithm::Levels | Algorithm::Paths, None) => Err(KeyFault::Missing(Key::Source)),
        (_, None) => Ok(None),
        (_, Some(value)) => Ok(Some(read_number(Key::Source, 0, MAX_ID, value)?)),
    }
}

/// The engine, or locking.
fn engine_or_locking(value: Option<&Value>) -> Result<EngineKind, KeyFault>
    ensures { result ≡ or_default Locking engine_in (option_map (λ v. view v.now) value.entry) }
{
    match value {
        None => Ok(EngineKind::Locking),
        Some(value) => read_engine(value),
    }
}

/// Where the order is written, which is not where the store is.
fn read_order<'a>(
    store: Option<&str>,
    value: Option<&'a Value>,
) -> Result<Option<&'a str>, KeyFault>
    ensures { MatchResult result (λ s. order_of (option_map (λ t. t.now) store.entry)
        (option_map (λ v. view v.now) value.entry) ≡ Ok (option_map (λ t. t.now) s))
        (λ e. order_of (option_map (λ t. t.now) store.entry)
        (option_map (λ v. view v.now) value.entry) ≡ Err e) }
{
    let order = optional_text(Key::Order, MAX_NAME_BYTES, value)?;
    match (store, order) {
        (Some(store), Some(order)) if order == store => {
            Err(KeyFault::OutOfRange(Key::Order, order.len() as u64))
        }
        _ => Ok(order),
    }
}

/// The values of the first five keys, or the first fault of these.
#[tactic(auto, unfolding(crate::specs::job_config::Inner::Groups::input_of))]
fn read_input(job: &Value) -> Result<Input<'_>, KeyFault>
    ensures value { MatchResult result (λ i. input_of (view job.entry.now) ≡ Ok (input_view i))
        (λ e. input_of (view job.entry.now) ≡ Err e) }
    ensures source { IfOk result (λ i. HasSource i.algorithm i.source) }
{
    let vertices = required_text(Key::Vertices, MAX_NAME_BYTES, job.get("vertices"))?;
    let edges = required_text(Key::Edges, MAX_NAME_BYTES, job.get("edges"))?;
    let directed = required_directed(job.get("directed"))?;
    let algorithm = required_algorithm(job.get("algorithm"))?;
    let source = read_source(algorithm, job.get("source"))?;
    Ok(Input {
        vertices,
        edges,
        directed,
        algorithm,
        source,
    })
}

/// The values of the next six keys, or the first fault of these.
#[tactic(auto, unfolding(crate::specs::job_config::Inner::Groups::settings_of))]
fn read_settings(job: &Value) -> Result<Settings, KeyFault>
    ensures value { result ≡ settings_of (view job.now) }
    ensures ranges { IfOk result HasSettings }
{
    let engine = engine_or_locking(job.get("engine"))?;
    let machines = number_or(Key::Machines, 1, 16, 1, job.get("machines"))?;
    let atoms = number_or(Key::Atoms, 1, 1024, 4 * machines, job.get("atoms"))?;
    let pipeline = number_or(Key::Pipeline, 1, 256, 16, job.get("pipeline"))?;
    let budget = number_or(Key::Budget, 1, MAX_UPDATES, MAX_UPDATES, job.get("budget"))?;
    let window = number_or(Key::Window, 1, MAX_UPDATES, 1048576, job.get("window"))?;
    Ok(Settings {
        engine,
        machines: machines as u16,
        atoms: atoms as u16,
        pipeline: pipeline as u16,
        budget,
        window: window as u32,
    })
}

/// The values of the last three keys, or the first fault of these.
#[tactic(auto, unfolding(crate::specs::job_config::Inner::Groups::places_of))]
fn read_places(job: &Value) -> Result<Places<'_>, KeyFault>
    ensures { MatchResult result (λ p. places_of (view job.entry.now) ≡ Ok (places_view p))
        (λ e. places_of (view job.entry.now) ≡ Err e) }
{
    let store = optional_text(Key::Store, MAX_NAME_BYTES, job.get("store"))?;
    let atoms_at = optional_text(Key::AtomsAt, MAX_ATOM_NAME_BYTES, job.get("atoms_at"))?;
    let order = read_order(store, job.get("order"))?;
    Ok(Places {
        store,
        atoms_at,
        order,
    })
}

/// The values key by key, or the first fault.
pub fn read_fields(job: &Value) -> Result<Fields<'_>, KeyFault>
    ensures value { MatchResult result (λ f. fields_of (view job.entry.now) ≡ Ok (fields_view f))
        (λ e. fields_of (view job.entry.now) ≡ Err e) }
    ensures ranges { IfOk result (λ f. HasNumbers (fields_view f)) }
{
    let input = read_input(job)?;
    let settings = read_settings(job)?;
    let places = read_places(job)?;
    Ok(Fields {
        input,
        settings,
        places,
    })
}
