//! What a run with a store leaves.

mod runs;

pub use runs::{MachinePlan, RunInput, SnapLine, StoredEnd, StoredPlan, StoredRun, UnstoredInput};
