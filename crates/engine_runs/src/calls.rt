//! A call that goes on.
use crate::answers::SnapLine;
use cluster_step::trace::Trace;
use gl_base::Entry;
use placed_machines::Places;
use placed_machines::any_machine::AnyMachine;
use recovery::restarts::Restarts;
use update_api::Program;

/// A call in its course: where its graph is placed, the restarts of the store's last order and of
/// that with which the newest attempt began, that order, the updates that failures took away, the
/// snapshots that were acknowledged, and whether one is taken of the end.
#[derive(Drop)]
pub(crate) struct StoredCall<P: Program> {
    pub(crate) trace: Trace<AnyMachine<P>>,
    pub(crate) places: Places,
    pub(crate) restarts: Restarts,
    pub(crate) order: Vec<Entry>,
    pub(crate) lost: Vec<Entry>,
    pub(crate) snapshots: Vec<SnapLine>,
    pub(crate) saves_end: bool,
}
