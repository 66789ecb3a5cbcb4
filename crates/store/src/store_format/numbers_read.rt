//! The numbers of a body, read.
ghost use Rattle.std.specs.Prelude.{◌≡◌, ℕ, ◌+◌, ◌*◌, ◌<◌, ◌≤◌, ◌==◌, if◌then◌else◌, length, slice_index, IfOk};
ghost use Rattle.store.specs.store_format.Sections.{row_end};
ghost use Rattle.store.specs.store_format.Bodies.{HasSections, sections_place};
ghost use Rattle.store.specs.store_format.StoredNumbers.{saved_at, saved_in_row, saved_vertices_from, saved_edges_from, saved_or, AreNumbersOf};

use crate::store_format::Header;
use crate::store_format::fields::u64_at;
use gl_base::NoMemory;
use graph_atoms::atom_file::u32_at;
use std::alloc::Global;

/// The number of each vertex and each edge in a snapshot.
#[derive(Drop)]
pub struct Numbers {
    pub vertices: Vec<u64>,
    pub edges: Vec<u64>,
}

/// Puts a number in the place of its key, where there is one.
fn put_number(numbers: &mut [u64], key: u32, number: u64)
    ensures { (k : ℕ) → k < length numbers.old
        → slice_index numbers.new k ≡ (if key == k then number else slice_index numbers.old k) }
{
    let place = key as usize;
    if place < numbers.len() {
        numbers[place] = number;
    }
}

/// Puts so many numbers, which stand behind their keys from a place on, in the places of these
/// keys.
fn put_saved(numbers: &mut [u64], body: &[u8], at: usize, count: u32)
    requires { at + 12 * count ≤ length body.now }
    ensures { (key : ℕ) → key < length numbers.old
        → slice_index numbers.new key ≡ saved_or (slice_index numbers.old key)
        (saved_at count body.now at) key }
{
    for i in 0..count as usize {
        let place = at + 12 * i;
        put_number(numbers, u32_at(body, place), u64_at(body, place + 4));
    }
}

/// Puts the numbers of the row at a place in their places, and tells where it ends.
fn put_row(numbers: &mut [u64], body: &[u8], at: usize) -> usize
    requires head { at + 4 ≤ length body.now }
    requires whole { row_end body.now at ≤ length body.now }
    ensures end { result ≡ row_end body.now at }
    ensures numbers { (key : ℕ) → key < length numbers.old
        → slice_index numbers.new key ≡ saved_or (slice_index numbers.old key)
        (saved_in_row body.now at) key }
{
    let count = u32_at(body, at);
    put_saved(numbers, body, at + 4, count);
    at + (4 + 12 * count as usize)
}

/// Puts the numbers of a body in their places.
fn put_sections(header: &Header, body: &[u8], vertices: &mut [u64], edges: &mut [u64])
    requires { HasSections header.now body.now }
    ensures vertices { (key : ℕ) → key < length vertices.old → slice_index vertices.new key
        ≡ saved_or (slice_index vertices.old key)
        (saved_vertices_from header.now.machines body.now (sections_place body.now)) key }
    ensures edges { (key : ℕ) → key < length edges.old → slice_index edges.new key
        ≡ saved_or (slice_index edges.old key)
        (saved_edges_from header.now.machines body.now (sections_place body.now)) key }
{
    let mut at = 8 + 16 * u32_at(body, 4) as usize;
    'sections: for _done in 0..header.machines {
        at = put_row(vertices, body, at);
        at = put_row(edges, body, at);
    }
}

/// The numbers of a body.
pub fn numbers_of(alloc: Global, header: &Header, body: &[u8]) -> Result<Numbers, NoMemory>
    requires { HasSections header.now body.now }
    ensures { IfOk result (λ numbers.
        AreNumbersOf header.now body.now numbers.vertices.items numbers.edges.items) }
{
    let mut vertices = vec![in alloc; 0u64; header.n as usize]?;
    let mut edges = vec![in alloc; 0u64; header.m as usize]?;
    put_sections(header, body, &mut vertices, &mut edges);
    Ok(Numbers { vertices, edges })
}
