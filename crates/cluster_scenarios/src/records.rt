//! Records that are taken, looked at, stored and acknowledged.
use crate::beginnings::Beginning;
use crate::events::{due_record, happens};
use crate::replays::{Numbers, replay};
use crate::restarts::missing_of;
use crate::scenes::{Kept, Scene};
use crate::stores::append;
use crate::trouble::Trouble;
use cluster_step::clusters::{Event, Lead};
use gl_base::{Entry, Record, SavedPart};
use recovery::restarts::record_behind;
use std::alloc::Global;
use update_api::Program;

/// Keeps and acknowledges the record that is due, if one is. Returns whether one was.
pub fn take_record<P: Program>(alloc: Global, scene: &mut Scene<'_, P>) -> Result<bool, Trouble> {
    let Some(record) = due_record(alloc, &mut scene.whole)? else {
        return Ok(false);
    };
    keep_record(alloc, scene.beginning, &mut scene.kept, record)?;
    if happens(&mut scene.whole, Event::Lead(Lead::Record))? {
        Ok(true)
    } else {
        Err(Trouble::Because("the record is not acknowledged"))
    }
}

/// Looks at the record, and adds it to the store with the restarts that this lacks.
pub fn keep_record<P: Program>(
    alloc: Global,
    beginning: &Beginning<'_, P>,
    kept: &mut Kept,
    record: Record,
) -> Result<(), Trouble> {
    let missing = match missing_of(alloc, kept, 0, 0) {
        Ok(missing) => missing,
        Err(trouble) => {
            drop(record);
            return Err(trouble);
        }
    };
    let record = record_behind(alloc, record, &missing)?;
    let outcome = keep_whole(alloc, beginning, kept, &record);
    drop(record);
    outcome
}

/// Looks at the record that has all restarts, and adds it to the store.
fn keep_whole<P: Program>(
    alloc: Global,
    beginning: &Beginning<'_, P>,
    kept: &mut Kept,
    record: &Record,
) -> Result<(), Trouble> {
    look_at(alloc, beginning, kept, record)?;
    append(alloc, &mut kept.store, record)?;
    kept.entries = Vec::from_slice(alloc, &record.entries)?;
    kept.lacking.clear();
    Ok(())
}

/// Looks whether the numbers of the record are those of the replay of all entries so far.
fn look_at<P: Program>(
    alloc: Global,
    beginning: &Beginning<'_, P>,
    kept: &mut Kept,
    record: &Record,
) -> Result<(), Trouble> {
    if record.sections.len() != beginning.machines as usize {
        return Err(Trouble::Because("a section is missing"));
    }
    kept.order.extend_from_slice(&record.entries)?;
    kept.order.sort_unstable_by_key(|entry| rank(*entry));
    let (graph, program) = (beginning.graph, beginning.program);
    kept.newest = replay(alloc, graph, program, &kept.first, &kept.order)?;
    has_numbers(alloc, record, &kept.newest)
}

/// Returns where an entry stands in an order: by its ticket, and a restart before an update with
/// the same.
fn rank(entry: Entry) -> u128 {
    match entry {
        Entry::Go { ticket, .. } => 2 * ticket as u128 + 1,
        Entry::Restart { ticket } => 2 * ticket as u128,
    }
}

/// Looks whether the sections have each vertex and each edge once, with these numbers.
fn has_numbers(alloc: Global, record: &Record, numbers: &Numbers) -> Result<(), Trouble> {
    let mut saved = Saved {
        values: Vec::new(alloc),
        edges: Vec::new(alloc),
    };
    for section in record.sections.iter() {
        saved.add(section);
    }
    if are_numbers(&mut saved.values, &numbers.values)
        && are_numbers(&mut saved.edges, &numbers.edges)
    {
        Ok(())
    } else {
        Err(Trouble::Because("the record's numbers are not the replay's"))
    }
}

/// The numbers of the vertices and of the edges in the sections of a record, each behind its place.
#[derive(Drop)]
struct Saved {
    values: Vec<(u32, u64)>,
    edges: Vec<(u32, u64)>,
}

impl Saved {
    /// Adds what a machine saved. What memory does not suffice for is missing then.
    fn add(&mut self, section: &SavedPart) {
        for (v, number) in section.vertices.iter() {
            let _ = self.values.push((v.0, *number));
        }
        for (e, number) in section.edges.iter() {
            let _ = self.edges.push((e.0, *number));
        }
    }
}

/// Returns whether each place has its number once.
fn are_numbers(saved: &mut [(u32, u64)], numbers: &[u64]) -> bool {
    saved.sort_unstable_by_key(|pair| pair.0);
    if saved.len() != numbers.len() {
        return false;
    }
    for (place, (at, number)) in saved.iter().enumerate() {
        if *at as usize != place || numbers.get(place) != Some(number) {
            return false;
        }
    }
    true
}
