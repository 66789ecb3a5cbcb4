//! The file of an atom, written.
ghost use Rattle.std.specs.Prelude.{◌≡◌, ◌++◌, IfOk, OnOk};
ghost use Rattle.std.specs.List.{flat_map};
ghost use Rattle.graph_atoms.specs.atom_file.Atoms.{atom_of, header_of, vertex_record, ghost_record, edge_record, atom_bytes, IsAtom};

use crate::atom_file::header::HEADER;
use byteorder::{BigEndian, ByteOrder};
use gl_base::{AtomNo, EdgeLine, GhostLine, Lines, NoMemory, VertexLine};
use std::alloc::Global;

/// The file of an atom with these lines. There are fewer than 4,294,967,296 of them, and each list
/// rises by its vertex or edge.
pub fn write_atom(alloc: Global, atom: AtomNo, lines: &Lines) -> Result<Vec<u8>, NoMemory>
    requires { IsAtom (atom_of atom.0 lines.now) }
    ensures { IfOk result (λ file. file.items ≡ atom_bytes (atom_of atom.0 lines.now)) }
{
    let vertices = lines.vertices.len();
    let ghosts = lines.ghosts.len();
    let edges = lines.edges.len();
    let mut file = Vec::with_capacity(alloc, HEADER + 13 * vertices + 15 * ghosts + 17 * edges)?;
    file.extend_from_slice(&header(atom, (vertices + ghosts + edges) as u32))?;
    push_vertices(&mut file, &lines.vertices)?;
    push_ghosts(&mut file, &lines.ghosts)?;
    push_edges(&mut file, &lines.edges)?;
    Ok(file)
}

/// `GLABATOM`, version 1, the atom, zero, and how many records there are.
fn header(atom: AtomNo, count: u32) -> [u8; 20]
    ensures { result ≡ header_of atom.0 count }
{
    let mut bytes = *b"GLABATOM............";
    BigEndian::write_u32(&mut bytes[8..], 1);
    BigEndian::write_u16(&mut bytes[12..], atom.0);
    BigEndian::write_u16(&mut bytes[14..], 0);
    BigEndian::write_u32(&mut bytes[16..], count);
    bytes
}

/// Adds the records of vertices.
fn push_vertices(file: &mut Vec<u8>, lines: &[VertexLine]) -> Result<(), NoMemory>
    ensures { OnOk result (file.new.items ≡ file.old.items ++ flat_map vertex_record lines.now) }
{
    for line in lines {
        file.extend_from_slice(&vertex_record(line))?;
    }
    Ok(())
}

/// The record of a vertex.
fn vertex_record(line: &VertexLine) -> [u8; 13]
    ensures { result ≡ vertex_record line.now }
{
    let mut record = [1u8; 13];
    BigEndian::write_u32(&mut record[1..], line.vertex.0);
    BigEndian::write_u64(&mut record[5..], line.id);
    record
}

/// Adds the records of ghosts.
fn push_ghosts(file: &mut Vec<u8>, lines: &[GhostLine]) -> Result<(), NoMemory>
    ensures { OnOk result (file.new.items ≡ file.old.items ++ flat_map ghost_record lines.now) }
{
    for line in lines {
        file.extend_from_slice(&ghost_record(line))?;
    }
    Ok(())
}

/// The record of a ghost.
fn ghost_record(line: &GhostLine) -> [u8; 15]
    ensures { result ≡ ghost_record line.now }
{
    let mut record = [2u8; 15];
    BigEndian::write_u32(&mut record[1..], line.vertex.0);
    BigEndian::write_u64(&mut record[5..], line.id);
    BigEndian::write_u16(&mut record[13..], line.atom.0);
    record
}

/// Adds the records of edges.
fn push_edges(file: &mut Vec<u8>, lines: &[EdgeLine]) -> Result<(), NoMemory>
    ensures { OnOk result (file.new.items ≡ file.old.items ++ flat_map edge_record lines.now) }
{
    for line in lines {
        file.extend_from_slice(&edge_record(line))?;
    }
    Ok(())
}

/// The record of an edge.
fn edge_record(line: &EdgeLine) -> [u8; 17]
    ensures { result ≡ edge_record line.now }
{
    let mut record = [3u8; 17];
    BigEndian::write_u32(&mut record[1..], line.edge.0);
    BigEndian::write_u32(&mut record[5..], line.from.0);
    BigEndian::write_u32(&mut record[9..], line.to.0);
    BigEndian::write_u32(&mut record[13..], line.weight);
    record
}
