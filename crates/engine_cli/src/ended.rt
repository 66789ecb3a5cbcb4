//! What a call of the engine leaves behind beside the printed answer.
use crate::Status;
use engine_runs::answers::SnapLine;
use gl_base::Entry;

/// How a call ended, and what it leaves of its run.
#[derive(Drop)]
pub struct Ended {
    pub status: Status,
    /// The updates that count, by ascending ticket, those of earlier runs of the store among them,
    /// and the restarts between them.
    pub order: Vec<Entry>,
    /// The updates of this run that a recovery took away, by ascending ticket.
    pub lost: Vec<Entry>,
    /// How many updates each machine completed in this run, lost ones among them.
    pub done: Vec<u64>,
    /// The places of the job's failures that fired.
    pub fired: Vec<u16>,
    /// The snapshots that were acknowledged in this run.
    pub snapshots: Vec<SnapLine>,
}
