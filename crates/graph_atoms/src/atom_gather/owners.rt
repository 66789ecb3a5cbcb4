//! The atom of each vertex, as the files of atoms say.
ghost use Rattle.std.specs.Prelude.{◌≡◌, ℕ, ◌+◌, ◌<◌, ◌≤◌, ◌++◌, ◌∷◌, [], List, map, Some, None, Err, IfOk, IfErr, OnOk, OnErr};
ghost use Rattle.gl_base.specs.declared.atoms.AtomsFault.{AtomsFault};
ghost use Rattle.gl_base.specs.declared.memory.OrNoMemory.{OrNoMemory};
ghost use Rattle.graph_atoms.specs.atom_file.Faults.{atom_fault};
ghost use Rattle.graph_atoms.specs.atom_cut.Cuts.{atom_numbers};
ghost use Rattle.graph_atoms.specs.atom_gather.Files.{form_of};
ghost use Rattle.graph_atoms.specs.atom_gather.Owners.{vertices_added, with_atom, owner_at, owner_fault, owners_of, AreHeld};
ghost use Rattle.graph_atoms.specs.atom_gather.Inner.Holding.{held_more, AreAllHeld, IsFirstUnheld};

use crate::atom_file::AtomView;
use crate::atom_gather::AtomsReading;
use crate::atom_gather::forms::fault_in;
use gl_base::{AtomNo, AtomsFault, AtomsKind, MAX_ATOMS, NoMemory, Vertex};
use std::alloc::Global;

/// What is kept of the atoms that add a vertex: nobody adds it, or one atom, or more.
#[derive(Clone, Copy)]
enum Held {
    Nobody,
    By(AtomNo),
    Many,
}

/// Which atoms add each vertex, as far as their files were read. The bytes of a file are not kept.
#[derive(Drop)]
pub struct Owners {
    held: Vec<Held>,
    beyond: bool,
}

impl Owners {
    /// No file was read yet. The graph has so many vertices.
    pub fn new(alloc: Global, vertices: u32) -> Result<Owners, NoMemory>
        ensures { IfOk result (AreHeld vertices []) }
    {
        Ok(Owners {
            held: vec![in alloc; Held::Nobody; vertices as usize]?,
            beyond: false,
        })
    }

    /// Looks at the form of the file of an atom, and adds its vertices. After a fault all is as
    /// before.
    pub fn add(&mut self, atom: AtomNo, bytes: &[u8]) -> Result<(), AtomsFault>
        requires { atom.0 < MAX_ATOMS }
        ensures none { OnOk result (atom_fault bytes.now ≡ None) }
        ensures fault { IfErr result (λ fault.
            form_of (atom.0 + 1) (atom_fault bytes.now) ≡ Some fault) }
        ensures added { OnOk result ((n : ℕ) (added : List (ℕ × ℕ)) → AreHeld n added self.old →
            AreHeld n (added ++ with_atom atom.0 (vertices_added bytes.now)) self.new) }
        ensures unchanged { OnErr result (self.new ≡ self.old) }
    {
        match AtomView::read(bytes) {
            Ok(view) => {
                self.hold_all(atom, &view);
                Ok(())
            }
            Err(fault) => Err(fault_in(atom.0 + 1, fault)),
        }
    }

    /// The atom of each vertex. Where a vertex is not in exactly one atom, or a number is added
    /// that no vertex has, it is refused.
    pub fn of(&self, alloc: Global) -> Result<Vec<AtomNo>, AtomsReading>
        ensures of { IfOk result (λ of. (n : ℕ) (added : List (ℕ × ℕ)) → AreHeld n added self.now →
            atom_numbers of.items ≡ owners_of n added) }
        ensures none { OnOk result ((n : ℕ) (added : List (ℕ × ℕ)) → AreHeld n added self.now →
            owner_fault n added ≡ None) }
        ensures fault { (fault : AtomsFault) (n : ℕ) (added : List (ℕ × ℕ)) →
            result ≡ Err (OrNoMemory.Fault fault) → AreHeld n added self.now →
            owner_fault n added ≡ Some fault }
    {
        let of = holders(alloc, &self.held)?;
        if self.beyond {
            return Err(AtomsReading::Fault(owner_at(self.held.len())));
        }
        Ok(of)
    }

    /// Adds the vertices of an atom.
    fn hold_all(&mut self, atom: AtomNo, view: &AtomView<'_>)
        ensures { (n : ℕ) (added : List (ℕ × ℕ)) → AreHeld n added self.old →
            AreHeld n (added ++ with_atom atom.0 (map (λ l.
            l.vertex.0) view.now.vertices)) self.new }
    {
        for i in 0..view.vertices() {
            self.hold(atom, view.vertex_line(i).vertex);
        }
    }

    /// Adds a vertex of an atom.
    fn hold(&mut self, atom: AtomNo, vertex: Vertex)
        ensures { (n : ℕ) (added : List (ℕ × ℕ)) → AreHeld n added self.old →
            AreHeld n (added ++ (vertex.0, atom.0) ∷ []) self.new }
    {
        let place = vertex.0 as usize;
        if place < self.held.len() {
            self.held[place] = more(self.held[place], atom);
        } else {
            self.beyond = true;
        }
    }
}

/// What is kept when one more atom adds the vertex.
fn more(held: Held, atom: AtomNo) -> Held
    ensures { result ≡ held_more held atom.0 }
{
    match held {
        Held::Nobody => Held::By(atom),
        Held::By(_) | Held::Many => Held::Many,
    }
}

/// The one atom that adds each vertex.
fn holders(alloc: Global, held: &[Held]) -> Result<Vec<AtomNo>, AtomsReading>
    ensures all { IfOk result (λ of. AreAllHeld held.now (atom_numbers of.items)) }
    ensures first { (fault : AtomsFault) → result ≡ Err (OrNoMemory.Fault fault) →
        IsFirstUnheld held.now fault }
{
    let mut of = room_for(alloc, held.len())?;
    for v in 0..held.len() {
        match held[v] {
            Held::By(atom) => push(&mut of, atom)?,
            Held::Nobody | Held::Many => return Err(AtomsReading::Fault(owner_at(v))),
        }
    }
    Ok(of)
}

/// No atom yet, with room for so many.
fn room_for(alloc: Global, count: usize) -> Result<Vec<AtomNo>, NoMemory>
    ensures { IfOk result (λ of. of.items ≡ []) }
{
    Ok(Vec::with_capacity(alloc, count)?)
}

/// Adds an atom.
fn push(of: &mut Vec<AtomNo>, atom: AtomNo) -> Result<(), NoMemory>
    ensures { OnOk result (of.new.items ≡ of.old.items ++ atom ∷ []) }
{
    Ok(of.push(atom)?)
}

/// A vertex that is not in exactly one atom.
fn owner_at(vertex: usize) -> AtomsFault
    ensures { result ≡ owner_at vertex }
{
    AtomsFault {
        file: 0,
        kind: AtomsKind::Owner,
        at: vertex as u64,
    }
}
