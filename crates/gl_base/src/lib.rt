//! The plain types of the engine: numbers of things, limits, orders, jobs, atoms, scopes,
//! snapshots, and why a call was refused.
#![tactic(auto)]

mod atoms;
mod digits;
mod entries;
mod job_faults;
mod jobs;
mod limits;
mod memory;
mod names;
mod numbers;
mod refusals;
pub mod scope_lists;
mod scopes;
mod snapshots;
mod text_faults;
mod usage_faults;
pub mod vertex_places;

pub use atoms::{AtomsFault, AtomsKind, EdgeLine, GhostLine, Lines, VertexLine};
pub use digits::push_decimal;
pub use entries::Entry;
pub use job_faults::{JobFault, Key};
pub use jobs::{Algorithm, EngineKind, FailureAt, Job, MakePlan};
pub use limits::{
    INF, MAX_ATOM_BYTES, MAX_ATOMS, MAX_EDGES, MAX_ID, MAX_JOB_BYTES, MAX_MACHINES, MAX_NAME_BYTES,
    MAX_SNAPSHOTS, MAX_STORE_BYTES, MAX_TEXT_BYTES, MAX_VERTICES,
};
pub use memory::{NoMemory, OrNoMemory};
pub use names::Name;
pub use numbers::{AtomNo, EdgeNo, MachineNo, Vertex};
pub use refusals::Refused;
pub use scopes::{Claim, Counted, Datum, Mode, Peer, ScopeId};
pub use snapshots::{Base, Record, SavedPart};
pub use text_faults::{TextFault, TextFile, TextKind};
pub use usage_faults::{Opt, UsageFault};
