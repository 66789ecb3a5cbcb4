//! Atoms gathered from their index and their files.
ghost use Rattle.std.specs.Prelude.{◌≡◌, ℕ, ◌+◌, ◌<◌, ◌≤◌, List, length, slice_index_or, All, Some, None, Err, IfOk, OnOk};
ghost use Rattle.gl_base.specs.declared.atoms.AtomsFault.{AtomsFault};
ghost use Rattle.gl_base.specs.declared.memory.OrNoMemory.{OrNoMemory};
ghost use Rattle.gl_base.specs.declared.atoms.Lines.{Lines};
ghost use Rattle.graph_core.specs.DataGraph.{DataGraph, IsDataGraph, size};
ghost use Rattle.graph_atoms.specs.atom_file.Atoms.{IsAtom, atom_of, atom_bytes};
ghost use Rattle.graph_atoms.specs.atom_cut.Atoms.{AreAtoms};
ghost use Rattle.graph_atoms.specs.atom_cut.Cuts.{atom_numbers};
ghost use Rattle.graph_atoms.specs.atom_gather.IndexForm.{atoms_in};
ghost use Rattle.graph_atoms.specs.atom_gather.Files.{atom_file_at, forms_fault, files_fault, cut_fault, differs_fault, AreFiles};
ghost use Rattle.graph_atoms.specs.atom_gather.Owners.{added_by, AreHeld};
ghost use Rattle.graph_atoms.specs.atom_gather.Gathered.{IsAssignment, told_owners, gather_fault};

use crate::atom_cut::{Atoms, index_under, lines_of};
use crate::atom_file::write_atom;
use crate::atom_gather::comparing::check_same;
use crate::atom_gather::forms::{fault_in, file_of};
use crate::atom_gather::index_form::check_index;
use crate::atom_gather::owners::Owners;
use gl_base::{AtomNo, AtomsFault, Lines, MAX_ATOMS, OrNoMemory};
use graph_core::Graph;
use std::alloc::Global;

/// Why atoms were not gathered: the first fault of their index and files, or want of memory.
pub type AtomsReading = OrNoMemory<AtomsFault>;

/// Gathers the atoms of a graph from their index and their files: answered is the atom of each
/// vertex, and what `cut` makes under it. A missing file is one without bytes, and files past the
/// index's number of atoms are not looked at.
///
/// Where index and files are not those of the graph under any assignment of its vertices, the first
/// fault is answered. It is looked for in this order: the form of the index; the form of each file,
/// ascending; the least vertex that is not in exactly one atom, or how many vertices there are
/// where a file adds a number that is no vertex; the first byte that is not that of the graph's
/// atom, file by file, ascending; and the first byte that is not that of the graph's index.
pub fn gathered(
    alloc: Global,
    graph: &Graph,
    index: &[u8],
    files: &[Vec<u8>],
) -> Result<Atoms, AtomsReading>
    ensures assignment { IfOk result (λ made.
        IsAssignment graph.now (atoms_in index.now) (atom_numbers made.of.items)) }
    ensures files { IfOk result (λ made.
        AreFiles graph.now (atoms_in index.now) (atom_numbers made.of.items) index.now
        (atom_file_at files.now)) }
    ensures lines { IfOk result (λ made.
        AreAtoms graph.now (atom_numbers made.of.items) (atoms_in index.now) made.lines.items) }
    ensures index { IfOk result (λ made. made.index.items ≡ index.now) }
    ensures only { (atoms : ℕ) (of : List ℕ) → IsAssignment graph.now atoms of →
        AreFiles graph.now atoms of index.now (atom_file_at files.now)
        → IfOk result (λ made. atom_numbers made.of.items ≡ of) }
    ensures none { OnOk result (gather_fault graph.now index.now (atom_file_at files.now) ≡ None) }
    ensures fault { (fault : AtomsFault) → result ≡ Err (OrNoMemory.Fault fault) →
        gather_fault graph.now index.now (atom_file_at files.now) ≡ Some fault }
{
    let atoms = match check_index(index) {
        Ok(atoms) => atoms,
        Err(fault) => return Err(AtomsReading::Fault(fault_in(0, fault))),
    };
    let owners = owners_in(alloc, graph.n(), files, atoms)?;
    let of = owners.of(alloc)?;
    gathered_under(alloc, graph, of, atoms, index, files)
}

/// Compares index and files with those of the graph, where `of` says in which of so many atoms each
/// vertex is.
fn gathered_under(
    alloc: Global,
    graph: &Graph,
    of: Vec<AtomNo>,
    atoms: u16,
    index: &[u8],
    files: &[Vec<u8>],
) -> Result<Atoms, AtomsReading>
    requires few { atoms ≤ MAX_ATOMS }
    requires graph { IsDataGraph graph.now }
    requires each { length of.items ≡ size graph.now }
    requires below { All (λ a. a.0 < atoms) of.items }
    ensures of { IfOk result (λ made. made.of.items ≡ of.items) }
    ensures lines { IfOk result (λ made.
        AreAtoms graph.now (atom_numbers of.items) atoms made.lines.items) }
    ensures index { IfOk result (λ made. made.index.items ≡ index.now) }
    ensures none { OnOk result
        (cut_fault graph.now (atom_numbers of.items) atoms index.now
        (atom_file_at files.now) ≡ None) }
    ensures fault { (fault : AtomsFault) → result ≡ Err (OrNoMemory.Fault fault)
        → cut_fault graph.now (atom_numbers of.items) atoms index.now
        (atom_file_at files.now) ≡ Some fault }
{
    let lines = lines_of(alloc, graph, &of, atoms)?;
    check_files(alloc, &lines, atoms, files)?;
    let wanted = index_under(alloc, graph, &of, &lines, atoms)?;
    match check_same(0, index, &wanted) {
        Ok(()) => Ok(Atoms {
            of,
            lines,
            index: wanted,
        }),
        Err(fault) => Err(AtomsReading::Fault(fault)),
    }
}

/// Compares the file of each atom with the one that its lines have.
fn check_files(
    alloc: Global,
    lines: &[Lines],
    atoms: u16,
    files: &[Vec<u8>],
) -> Result<(), AtomsReading>
    requires few { atoms ≤ MAX_ATOMS }
    requires each { length lines.now ≡ atoms }
    requires atoms { (a : ℕ) (d : Lines) → a < atoms →
        IsAtom (atom_of a (slice_index_or lines.now a d)) }
    ensures none { OnOk result ((g : DataGraph) (of : List ℕ) → AreAtoms g of atoms lines.now →
        files_fault g of (atom_file_at files.now) atoms 0 ≡ None) }
    ensures fault { (fault : AtomsFault) (g : DataGraph) (of : List ℕ) →
        result ≡ Err (OrNoMemory.Fault fault) → AreAtoms g of atoms lines.now
        → files_fault g of (atom_file_at files.now) atoms 0 ≡ Some fault }
{
    for a in 0..atoms {
        check_atom(alloc, AtomNo(a), &lines[a as usize], file_of(files, a))?;
    }
    Ok(())
}

/// Compares the file of an atom with the one that these lines have.
pub fn check_atom(
    alloc: Global,
    atom: AtomNo,
    lines: &Lines,
    bytes: &[u8],
) -> Result<(), AtomsReading>
    requires few { atom.0 < MAX_ATOMS }
    requires atom { IsAtom (atom_of atom.0 lines.now) }
    ensures none { OnOk result
        (differs_fault (atom.0 + 1) bytes.now (atom_bytes (atom_of atom.0 lines.now)) ≡ None) }
    ensures fault { (fault : AtomsFault) → result ≡ Err (OrNoMemory.Fault fault) →
        differs_fault (atom.0 + 1) bytes.now (atom_bytes (atom_of atom.0 lines.now)) ≡ Some fault }
{
    let wanted = write_atom(alloc, atom, lines)?;
    match check_same(atom.0 + 1, bytes, &wanted) {
        Ok(()) => Ok(()),
        Err(fault) => Err(AtomsReading::Fault(fault)),
    }
}

/// Looks at the form of each of so many files, and adds their vertices.
fn owners_in(
    alloc: Global,
    vertices: u32,
    files: &[Vec<u8>],
    atoms: u16,
) -> Result<Owners, AtomsReading>
    requires { atoms ≤ MAX_ATOMS }
    ensures held { IfOk result (AreHeld vertices (added_by (atom_file_at files.now) atoms)) }
    ensures none { OnOk result (forms_fault (atom_file_at files.now) atoms 0 ≡ None) }
    ensures fault { (fault : AtomsFault) → result ≡ Err (OrNoMemory.Fault fault) →
        forms_fault (atom_file_at files.now) atoms 0 ≡ Some fault }
{
    let mut owners = Owners::new(alloc, vertices)?;
    for a in 0..atoms {
        match owners.add(AtomNo(a), file_of(files, a)) {
            Ok(()) => {}
            Err(fault) => return Err(AtomsReading::Fault(fault)),
        }
    }
    Ok(owners)
}
