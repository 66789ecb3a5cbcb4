//! A cluster as a scenario plays it, with the store beside it.
use crate::beginnings::{Beginning, Whole, begun};
use crate::replays::Numbers;
use crate::stores::{Store, empty_store};
use crate::trouble::Trouble;
use gl_base::Entry;
use std::alloc::Global;
use update_api::Program;

/// What is known beside the cluster: its store, and what follows from the records so far.
#[derive(Drop)]
pub struct Kept {
    pub store: Option<Store>,
    /// The numbers with which replays begin, and those of the newest snapshot.
    pub first: Numbers,
    pub newest: Numbers,
    /// The order of the newest snapshot: the entries of all records, by ticket.
    pub order: Vec<Entry>,
    /// The entries of the newest record.
    pub entries: Vec<Entry>,
    /// The restarts of the order that the attempt began with which the store lacks.
    pub lacking: Vec<Entry>,
}

/// A cluster, what it begins with, and what is known beside it.
#[derive(Drop)]
pub struct Scene<'a, P: Program> {
    pub beginning: &'a Beginning<'a, P>,
    pub whole: Whole<P>,
    pub kept: Kept,
}

impl<'a, P: Program> Scene<'a, P> {
    /// Returns the cluster as it begins, with a store without snapshots.
    pub fn new(alloc: Global, beginning: &'a Beginning<'a, P>) -> Result<Scene<'a, P>, Trouble> {
        let kept = first_kept(alloc, beginning)?;
        match begun(alloc, beginning) {
            Ok(whole) => Ok(Scene {
                beginning,
                whole,
                kept,
            }),
            Err(trouble) => {
                drop(kept);
                Err(trouble)
            }
        }
    }
}

/// Returns what is known at first.
pub fn first_kept<P: Program>(
    alloc: Global,
    beginning: &Beginning<'_, P>,
) -> Result<Kept, Trouble> {
    let first = Numbers::of(alloc, &beginning.base)?;
    let newest = Numbers::of(alloc, &beginning.base)?;
    let store = empty_store(alloc, beginning.graph, beginning.machines)?;
    Ok(Kept {
        store: Some(store),
        first,
        newest,
        order: Vec::new(alloc),
        entries: Vec::new(alloc),
        lacking: Vec::new(alloc),
    })
}
