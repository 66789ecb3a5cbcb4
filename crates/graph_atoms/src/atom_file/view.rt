//! The file of an atom, read where it lies.
ghost use Rattle.std.specs.Prelude.{◌≡◌, ◌*◌, ◌<◌, length, slice_get, Some, None, IfOk, OnOk, IfErr, IsOkAnd};
ghost use Rattle.graph_atoms.specs.atom_file.Atoms.{Atom, atom_of, atom_bytes, IsAtom, AtomFits};
ghost use Rattle.graph_atoms.specs.atom_file.Faults.{atom_fault};

use crate::atom_file::AtomFault;
use crate::atom_file::counts::counts_of;
use crate::atom_file::fields::u16_at;
use crate::atom_file::header::HEADER;
use crate::atom_file::lists::{edge_lines, ghost_lines, vertex_lines};
use crate::atom_file::records::{edge_at, ghost_at, vertex_at};
use gl_base::{AtomNo, EdgeLine, GhostLine, Lines, NoMemory, VertexLine};
use std::alloc::Global;
use std::marker::Model;

/// The file of an atom. The records stay where they lie: this keeps slices of the bytes that were
/// read, and takes no memory. Contracts see the atom.
#[derive(Drop)]
pub struct AtomView<'a> {
    number: AtomNo,
    vertex_count: u32,
    vertices: &'a [u8],
    ghost_count: u32,
    ghosts: &'a [u8],
    edge_count: u32,
    edges: &'a [u8],
}

impl<'a> Model for AtomView<'a> {
    ghost use Rattle.std.specs.Prelude.{◌≡◌, ◌*◌, length};
    ghost use Rattle.graph_atoms.specs.atom_file.Atoms.{Atom};
    ghost use Rattle.graph_atoms.specs.atom_file.Views.{vertex_at, ghost_at, edge_at, records_in};

    ghost Value = { Atom };

    ghost view = { λ v. record {
      number = v.number.0;
      vertices = records_in vertex_at 13 v.vertex_count v.vertices.now;
      ghosts = records_in ghost_at 15 v.ghost_count v.ghosts.now;
      edges = records_in edge_at 17 v.edge_count v.edges.now;
    } };

    ghost invariant = { λ v.
        (length v.vertices.now ≡ 13 * v.vertex_count) × (length v.ghosts.now ≡ 15 * v.ghost_count)
        × (length v.edges.now ≡ 17 * v.edge_count) };
}

impl<'a> AtomView<'a> {
    /// Reads a file from front to back. Where it is not the file of an atom, the first fault is
    /// answered.
    pub fn read(bytes: &'a [u8]) -> Result<AtomView<'a>, AtomFault>
        ensures bytes { IfOk result (λ view. bytes.now ≡ atom_bytes view) }
        ensures atom { IfOk result IsAtom }
        ensures fits { IfOk result AtomFits }
        ensures only { (a : Atom) → IsAtom a → AtomFits a → bytes.now ≡ atom_bytes a →
            IsOkAnd result (λ view. view ≡ a) }
        ensures none { OnOk result (atom_fault bytes.now ≡ None) }
        ensures fault { IfErr result (λ fault. atom_fault bytes.now ≡ Some fault) }
    {
        let counts = counts_of(bytes)?;
        let ghosts_at = HEADER + 13 * counts.vertices as usize;
        let edges_at = ghosts_at + 15 * counts.ghosts as usize;
        Ok(AtomView {
            number: AtomNo(u16_at(bytes, 12)),
            vertex_count: counts.vertices,
            vertices: &bytes[HEADER..ghosts_at],
            ghost_count: counts.ghosts,
            ghosts: &bytes[ghosts_at..edges_at],
            edge_count: counts.edges,
            edges: &bytes[edges_at..],
        })
    }

    /// Copies the records.
    pub fn lines(&self, alloc: Global) -> Result<Lines, NoMemory>
        ensures { IfOk result (λ lines. atom_of self.now.number lines ≡ self.now) }
    {
        Ok(Lines {
            vertices: vertex_lines(alloc, self.vertices, self.vertex_count)?,
            ghosts: ghost_lines(alloc, self.ghosts, self.ghost_count)?,
            edges: edge_lines(alloc, self.edges, self.edge_count)?,
        })
    }

    /// Which atom it is.
    pub fn number(&self) -> AtomNo
        ensures { result.0 ≡ self.now.number }
    {
        self.number
    }

    /// How many vertices it has.
    pub fn vertices(&self) -> u32
        ensures { result ≡ length self.now.vertices }
    {
        self.vertex_count
    }

    /// How many ghosts it has.
    pub fn ghosts(&self) -> u32
        ensures { result ≡ length self.now.ghosts }
    {
        self.ghost_count
    }

    /// How many edges it has.
    pub fn edges(&self) -> u32
        ensures { result ≡ length self.now.edges }
    {
        self.edge_count
    }

    /// The vertex at a place, counted from 0.
    pub fn vertex_line(&self, i: u32) -> VertexLine
        requires { i < length self.now.vertices }
        ensures { slice_get self.now.vertices i ≡ Some result }
    {
        vertex_at(self.vertices, 13 * i as usize)
    }

    /// The ghost at a place, counted from 0.
    pub fn ghost_line(&self, i: u32) -> GhostLine
        requires { i < length self.now.ghosts }
        ensures { slice_get self.now.ghosts i ≡ Some result }
    {
        ghost_at(self.ghosts, 15 * i as usize)
    }

    /// The edge at a place, counted from 0.
    pub fn edge_line(&self, i: u32) -> EdgeLine
        requires { i < length self.now.edges }
        ensures { slice_get self.now.edges i ≡ Some result }
    {
        edge_at(self.edges, 17 * i as usize)
    }
}
