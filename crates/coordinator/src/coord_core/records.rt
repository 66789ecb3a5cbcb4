//! The record of a snapshot, from the sections of its machines.
ghost use Rattle.std.specs.Prelude.{◌≡◌, ◌++◌, length, map, option_map, OnOk, IfOk};
ghost use Rattle.std.specs.List.Sorted.{IsPermutation};
ghost use Rattle.coordinator.specs.coord_core.Saving.{entries_told, section_view};
ghost use Rattle.coordinator.specs.coord_core.Records.{ArePartsOf, AreByTicket, IsPartOfRecord, IsRecordFrom, entries_upto, ticket_of};

use gl_base::{Entry, NoMemory, Record, SavedPart};
use std::alloc::Global;
use wire::wire_msgs::Section;

/// The record of these sections: the numbers of each by vertex and by edge, and the entries of all
/// by ticket.
pub fn record_of(alloc: Global, number: u32, come: &[Option<Section>]) -> Result<Record, NoMemory>
    ensures { IfOk result (IsRecordFrom number (map (option_map section_view) come.now)) }
{
    Ok(Record {
        number,
        entries: entries_of(alloc, come)?,
        sections: parts_of(alloc, come)?,
    })
}

/// The entries of all sections, by ticket.
fn entries_of(alloc: Global, come: &[Option<Section>]) -> Result<Vec<Entry>, NoMemory>
    ensures all { IfOk result (λ entries.
        IsPermutation (entries_upto (length come.now) (map (option_map section_view) come.now))
        entries.items) }
    ensures by_ticket { IfOk result (λ entries. AreByTicket entries.items) }
{
    let mut entries = Vec::new(alloc);
    for section in come {
        push_entries(&mut entries, section)?;
    }
    entries.sort_unstable_by_key(|entry| ticket(*entry));
    Ok(entries)
}

/// Adds the entries of a section, where it has come.
fn push_entries(entries: &mut Vec<Entry>, section: &Option<Section>) -> Result<(), NoMemory>
    ensures { OnOk result
        (entries.new.items ≡ entries.old.items ++ entries_told
        (option_map section_view section.now)) }
{
    if let Some(section) = section {
        entries.extend_from_slice(&section.entries)?;
    }
    Ok(())
}

/// The ticket of an entry.
fn ticket(entry: Entry) -> u64
    ensures { result ≡ ticket_of entry }
{
    match entry {
        Entry::Go { ticket, .. } | Entry::Restart { ticket } => ticket,
    }
}

/// What each machine saved, in the order of the machines.
fn parts_of(alloc: Global, come: &[Option<Section>]) -> Result<Vec<SavedPart>, NoMemory>
    ensures { IfOk result (λ parts.
        ArePartsOf (map (option_map section_view) come.now) parts.items) }
{
    let mut parts = Vec::with_capacity(alloc, come.len())?;
    for section in come {
        parts.push_reserved(part_of(alloc, section)?);
    }
    Ok(parts)
}

/// What a machine saved, by vertex and by edge; nothing where its section has not come.
fn part_of(alloc: Global, section: &Option<Section>) -> Result<SavedPart, NoMemory>
    ensures { IfOk result (IsPartOfRecord (option_map section_view section.now)) }
{
    let Some(section) = section else {
        return Ok(SavedPart {
            vertices: Vec::new(alloc),
            edges: Vec::new(alloc),
        });
    };
    let mut vertices = Vec::from_slice(alloc, &section.vertices)?;
    vertices.sort_unstable_by_key(|pair| pair.0.0);
    let mut edges = Vec::from_slice(alloc, &section.edges)?;
    edges.sort_unstable_by_key(|pair| pair.0.0);
    Ok(SavedPart { vertices, edges })
}
