//! The bytes of a snapshot's record.
ghost use Rattle.std.specs.Prelude.{◌≡◌, ℕ, ◌+◌, ◌^◌, ◌<◌, ◌≤◌, List, [], ◌∷◌, ◌++◌, length, drop, All, IfOk, OnOk};
ghost use Rattle.std.specs.List.{flat_map};
ghost use Rattle.byteorder.specs.Endian.{big_bytes};
ghost use Rattle.store.specs.store_format.Encoding.{entry_bytes, saved_vertex, saved_edge, section_bytes, body_bytes, PartFits, RecordFits};
ghost use Rattle.store.specs.store_format.Records.{stored_bytes};

use byteorder::{BigEndian, ByteOrder};
use gl_base::{EdgeNo, Entry, NoMemory, Record, SavedPart, Vertex};
use std::alloc::Global;

/// The bytes of an entry, by its fields.
fn entry_fields(kind: u8, machine: u16, vertex: u32, ticket: u64) -> [u8; 16]
    ensures { result ≡ (kind ∷ 0 ∷ []) ++ (big_bytes 2
        machine ++ (big_bytes 4 vertex ++ big_bytes 8 ticket)) }
{
    let mut bytes = [0; 16];
    bytes[0] = kind;
    BigEndian::write_u16(&mut bytes[2..], machine);
    BigEndian::write_u32(&mut bytes[4..], vertex);
    BigEndian::write_u64(&mut bytes[8..], ticket);
    bytes
}

/// The bytes of an entry.
fn entry_bytes(entry: &Entry) -> [u8; 16]
    ensures { result ≡ entry_bytes entry.now }
{
    match *entry {
        Entry::Go {
            machine,
            vertex,
            ticket,
        } => entry_fields(1, machine.0, vertex.0, ticket),
        Entry::Restart { ticket } => entry_fields(2, 0, 0, ticket),
    }
}

/// The bytes of a key and its number.
fn saved_bytes(key: u32, number: u64) -> [u8; 12]
    ensures { result ≡ big_bytes 4 key ++ big_bytes 8 number }
{
    let mut bytes = [0; 12];
    BigEndian::write_u32(&mut bytes[..], key);
    BigEndian::write_u64(&mut bytes[4..], number);
    bytes
}

/// The bytes of a vertex and its number.
fn vertex_bytes(saved: &(Vertex, u64)) -> [u8; 12]
    ensures { result ≡ saved_vertex saved.now }
{
    saved_bytes(saved.0.0, saved.1)
}

/// The bytes of an edge and its number.
fn edge_bytes(saved: &(EdgeNo, u64)) -> [u8; 12]
    ensures { result ≡ saved_edge saved.now }
{
    saved_bytes(saved.0.0, saved.1)
}

/// The bytes of a count.
fn count_bytes(count: usize) -> [u8; 4]
    requires { count < 2 ^ 32 }
    ensures { result ≡ big_bytes 4 count }
{
    let mut bytes = [0; 4];
    BigEndian::write_u32(&mut bytes, count as u32);
    bytes
}

/// Adds entries.
fn push_entries(bytes: &mut Vec<u8>, entries: &[Entry]) -> Result<(), NoMemory>
    ensures { OnOk result (bytes.new.items ≡ bytes.old.items ++ flat_map entry_bytes entries.now) }
{
    for entry in entries {
        bytes.extend_from_slice(&entry_bytes(entry))?;
    }
    Ok(())
}

/// Adds vertices with their numbers.
fn push_vertices(bytes: &mut Vec<u8>, saved: &[(Vertex, u64)]) -> Result<(), NoMemory>
    ensures { OnOk result (bytes.new.items ≡ bytes.old.items ++ flat_map saved_vertex saved.now) }
{
    for pair in saved {
        bytes.extend_from_slice(&vertex_bytes(pair))?;
    }
    Ok(())
}

/// Adds edges with their numbers.
fn push_edges(bytes: &mut Vec<u8>, saved: &[(EdgeNo, u64)]) -> Result<(), NoMemory>
    ensures { OnOk result (bytes.new.items ≡ bytes.old.items ++ flat_map saved_edge saved.now) }
{
    for pair in saved {
        bytes.extend_from_slice(&edge_bytes(pair))?;
    }
    Ok(())
}

/// Adds the section of a machine.
fn push_section(bytes: &mut Vec<u8>, part: &SavedPart) -> Result<(), NoMemory>
    requires { PartFits part.now }
    ensures { OnOk result (bytes.new.items ≡ bytes.old.items ++ section_bytes part.now) }
{
    bytes.extend_from_slice(&count_bytes(part.vertices.len()))?;
    push_vertices(bytes, &part.vertices)?;
    bytes.extend_from_slice(&count_bytes(part.edges.len()))?;
    push_edges(bytes, &part.edges)
}

/// Adds the sections of all machines.
fn push_sections(bytes: &mut Vec<u8>, sections: &[SavedPart]) -> Result<(), NoMemory>
    requires { All PartFits sections.now }
    ensures { OnOk result
        (bytes.new.items ≡ bytes.old.items ++ flat_map section_bytes sections.now) }
{
    for part in sections {
        push_section(bytes, part)?;
    }
    Ok(())
}

/// Adds the body of a record.
pub fn push_body(bytes: &mut Vec<u8>, next: &Record) -> Result<(), NoMemory>
    requires { RecordFits next.now }
    ensures { OnOk result (bytes.new.items ≡ bytes.old.items ++ body_bytes next.now) }
{
    bytes.extend_from_slice(&count_bytes(next.number as usize))?;
    bytes.extend_from_slice(&count_bytes(next.entries.len()))?;
    push_entries(bytes, &next.entries)?;
    push_sections(bytes, &next.sections)
}

/// Writes a length over the first eight bytes.
fn put_length(bytes: &mut [u8], number: u64)
    requires { 8 ≤ length bytes.old }
    ensures { bytes.new ≡ big_bytes 8 number ++ drop 8 bytes.old }
{
    BigEndian::write_u64(bytes, number);
}

/// The bytes of a record behind its gate, with the closed gate that follows.
pub fn stored_bytes(alloc: Global, next: &Record) -> Result<Vec<u8>, NoMemory>
    requires { RecordFits next.now }
    ensures { IfOk result (λ bytes. bytes.items ≡ stored_bytes (body_bytes next.now)) }
{
    let mut bytes = vec![in alloc; 0u8; 8]?;
    push_body(&mut bytes, next)?;
    let body = bytes.len() as u64 - 8;
    put_length(&mut bytes, body);
    bytes.push(0)?;
    Ok(bytes)
}
