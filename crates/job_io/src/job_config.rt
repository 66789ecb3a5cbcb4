//! Reads the job: what a run is asked to do, as a JSON object.
//!
//! `serde_json` reads the bytes as a value, and the value's members are then read key by key.
//! `specs/Jobs.antt` says which bytes are a job.

mod failures;
mod fields;
mod keys;
mod reading;
mod values;

pub use reading::{JobReading, read_job};
