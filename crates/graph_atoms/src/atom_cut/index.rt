//! The index of a cut.
ghost use Rattle.std.specs.Prelude.{◌≡◌, ℕ, ◌^◌, ◌<◌, ◌++◌, ◌∷◌, List, if◌then◌else◌, length, slice_index_or, IfOk, OnOk};
ghost use Rattle.std.specs.List.{flat_map};
ghost use Rattle.gl_base.specs.declared.atoms.Lines.{Lines};
ghost use Rattle.byteorder.specs.Endian.{big_bytes};
ghost use Rattle.graph_atoms.specs.atom_file.Atoms.{atom_of};
ghost use Rattle.graph_atoms.specs.atom_cut.Atoms.{AreAtoms};
ghost use Rattle.graph_atoms.specs.atom_cut.MetaEdges.{meta_edges};
ghost use Rattle.graph_atoms.specs.atom_cut.Index.{head_bytes, count_bytes, meta_bytes, metas_bytes, index_bytes};
ghost use Rattle.graph_atoms.specs.atom_cut.Inner.Filling.{AreFew};

use crate::atom_cut::metas::MetaEdge;
use byteorder::{BigEndian, ByteOrder};
use gl_base::{Lines, NoMemory};
use graph_core::{Graph, digest};
use std::alloc::Global;

/// The bytes of the index of a cut into so many atoms with these lines and these meta-edges.
pub fn index_of(
    alloc: Global,
    graph: &Graph,
    atoms: u16,
    lines: &[Lines],
    metas: &[MetaEdge],
) -> Result<Vec<u8>, NoMemory>
    requires lines { (a : ℕ) (d : Lines) → a < length lines.now →
        AreFew (slice_index_or lines.now a d) }
    requires few { length metas.now < 2 ^ 32 }
    ensures { (of : List ℕ) → AreAtoms graph.now of atoms lines.now →
        metas.now ≡ meta_edges graph.now of atoms →
        IfOk result (λ index. index.items ≡ index_bytes graph.now of atoms) }
{
    let mut index = Vec::with_capacity(alloc, 52 + 12 * lines.len() + 8 * metas.len())?;
    push_head(digest(graph), graph.directed(), atoms, &mut index)?;
    push_counts(lines, &mut index)?;
    push_metas(metas, &mut index)?;
    Ok(index)
}

/// Adds `GLABINDX`, version 1, the digest of a graph, whether its edges have a direction, zero, and
/// how many atoms there are.
fn push_head(
    digest: [u8; 32],
    directed: bool,
    atoms: u16,
    index: &mut Vec<u8>,
) -> Result<(), NoMemory>
    ensures { OnOk result (index.new.items ≡ index.old.items ++ head_bytes digest directed atoms) }
{
    index.extend_from_slice(b"GLABINDX\0\0\0\x01")?;
    index.extend_from_slice(&digest)?;
    index.extend_from_slice(&kind_and_count(directed, atoms))?;
    Ok(())
}

/// Whether edges have a direction, zero, and how many atoms there are.
fn kind_and_count(directed: bool, atoms: u16) -> [u8; 4]
    ensures { result ≡ (if directed then 1 else 0) ∷ 0 ∷ big_bytes 2 atoms }
{
    let mut bytes = [u8::from(directed), 0, 0, 0];
    BigEndian::write_u16(&mut bytes[2..], atoms);
    bytes
}

/// Adds how many vertices, ghosts and edges each atom has.
fn push_counts(lines: &[Lines], index: &mut Vec<u8>) -> Result<(), NoMemory>
    requires { (a : ℕ) (d : Lines) → a < length lines.now → AreFew (slice_index_or lines.now a d) }
    ensures { OnOk result (index.new.items ≡ index.old.items ++ flat_map (λ l.
        count_bytes (atom_of 0 l)) lines.now) }
{
    for atom in lines {
        index.extend_from_slice(&count_record(atom))?;
    }
    Ok(())
}

/// How many vertices, ghosts and edges an atom has.
fn count_record(lines: &Lines) -> [u8; 12]
    requires { AreFew lines.now }
    ensures { result ≡ count_bytes (atom_of 0 lines.now) }
{
    let mut bytes = [0u8; 12];
    BigEndian::write_u32(&mut bytes, lines.vertices.len() as u32);
    BigEndian::write_u32(&mut bytes[4..], lines.ghosts.len() as u32);
    BigEndian::write_u32(&mut bytes[8..], lines.edges.len() as u32);
    bytes
}

/// Adds how many meta-edges there are, and they.
fn push_metas(metas: &[MetaEdge], index: &mut Vec<u8>) -> Result<(), NoMemory>
    requires { length metas.now < 2 ^ 32 }
    ensures { OnOk result (index.new.items ≡ index.old.items ++ metas_bytes metas.now) }
{
    let mut count = [0u8; 4];
    BigEndian::write_u32(&mut count, metas.len() as u32);
    index.extend_from_slice(&count)?;
    for meta in metas {
        index.extend_from_slice(&meta_record(meta))?;
    }
    Ok(())
}

/// The bytes of a meta-edge.
fn meta_record(meta: &MetaEdge) -> [u8; 8]
    ensures { result ≡ meta_bytes meta.now }
{
    let mut bytes = [0u8; 8];
    BigEndian::write_u16(&mut bytes, meta.a.0);
    BigEndian::write_u16(&mut bytes[2..], meta.b.0);
    BigEndian::write_u32(&mut bytes[4..], meta.count);
    bytes
}
