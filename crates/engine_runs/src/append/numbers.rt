//! The numbers of a record.
ghost use Rattle.std.specs.Prelude.{◌≡◌, ℕ, ◌<◌, ◌^◌, ◌==◌, if◌then◌else◌, length, map, slice_index, IfOk};
ghost use Rattle.std.specs.List.{AllByRecursion, flat_map};
ghost use Rattle.engine_runs.specs.append.Inner.Numbers.{EntryFits, NumbersFit, PairFits, edge_pair, part_edges, part_vertices, saved_or, vertex_pair};
ghost use Rattle.engine_runs.specs.append.Folds.{IsFoldOf};

use gl_base::{EdgeNo, Entry, NoMemory, Record, SavedPart, Vertex};
use graph_text::sync_folds::Fold;
use std::alloc::Global;

/// What the numbers of the vertices of a record come to, in a graph of so many: each vertex counts
/// once, with the number that is saved last, and with 0 where it has none.
pub(crate) fn fold_of(alloc: Global, n: u32, made: &Record) -> Result<Fold, NoMemory>
    ensures { IfOk result (IsFoldOf n made.now) }
{
    let mut values = vec![in alloc; 0u64; n as usize]?;
    for part in &made.sections {
        put_numbers(&mut values, &part.vertices);
    }
    Ok(Fold::of(&values))
}

/// Puts each number in the place of its vertex, where there is one.
fn put_numbers(values: &mut [u64], saved: &[(Vertex, u64)])
    ensures length { length values.new ≡ length values.old }
    ensures each { (v : ℕ) → v < length values.old →
        slice_index values.new v ≡ saved_or (slice_index values.old v)
        (map vertex_pair saved.now) v }
{
    for pair in saved {
        put_number(values, pair.0, pair.1);
    }
}

/// Puts a number in the place of a vertex, where there is one.
fn put_number(values: &mut [u64], vertex: Vertex, number: u64)
    ensures length { length values.new ≡ length values.old }
    ensures each { (v : ℕ) → v < length values.old →
        slice_index values.new v ≡ (if vertex.0 == v then number else slice_index values.old v) }
{
    let place = vertex.0 as usize;
    if place < values.len() {
        values[place] = number;
    }
}

/// Goes over all numbers of a record: each fits its field.
pub(crate) fn look_over(made: &Record)
    ensures { NumbersFit made.now }
{
    look_over_entries(&made.entries);
    look_over_parts(&made.sections);
}

/// Goes over the numbers of entries.
fn look_over_entries(entries: &[Entry])
    ensures { AllByRecursion EntryFits entries.now }
{
    for entry in entries {
        look_at(entry);
    }
}

/// Looks at the numbers of an entry.
fn look_at(entry: &Entry)
    ensures { EntryFits entry.now }
{
    match *entry {
        Entry::Go {
            machine,
            vertex,
            ticket,
        } => update_fits(machine.0, vertex.0, ticket),
        Entry::Restart { ticket } => restart_fits(ticket),
    }
}

/// The numbers of an update fit their fields.
fn update_fits(machine: u16, vertex: u32, ticket: u64)
    ensures { (machine < 2 ^ 16) × (vertex < 2 ^ 32) × (ticket < 2 ^ 64) }
{}

/// The ticket of a restart fits its field.
fn restart_fits(ticket: u64)
    ensures { ticket < 2 ^ 64 }
{}

/// A key and its number fit their fields.
fn pair_fits(key: u32, number: u64)
    ensures { (key < 2 ^ 32) × (number < 2 ^ 64) }
{}

/// Goes over the numbers of what machines saved.
fn look_over_parts(parts: &[SavedPart])
    ensures vertices { AllByRecursion PairFits (flat_map part_vertices parts.now) }
    ensures edges { AllByRecursion PairFits (flat_map part_edges parts.now) }
{
    for part in parts {
        look_over_vertices(&part.vertices);
        look_over_edges(&part.edges);
    }
}

/// Goes over vertices and their numbers.
fn look_over_vertices(saved: &[(Vertex, u64)])
    ensures { AllByRecursion PairFits (map vertex_pair saved.now) }
{
    for pair in saved {
        pair_fits(pair.0.0, pair.1);
    }
}

/// Goes over edges and their numbers.
fn look_over_edges(saved: &[(EdgeNo, u64)])
    ensures { AllByRecursion PairFits (map edge_pair saved.now) }
{
    for pair in saved {
        pair_fits(pair.0.0, pair.1);
    }
}
