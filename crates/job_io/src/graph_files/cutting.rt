//! The index and the atoms of a cut.
ghost use Rattle.std.specs.Prelude.{◌≡◌, ◌⊎◌, ◌≤◌, ◌+◌, ◌∷◌, [], ℕ, length, take, IfSome, IfErr, OnOk, Some};
ghost use Rattle.gl_outside.specs.Names.{AppendsNames};
ghost use Rattle.graph_atoms.specs.atom_file.Atoms.{IsAtom, atom_bytes, atom_of};
ghost use Rattle.job_io.specs.whole_files.AtomNames.{atom_name, cut_name, cut_names};
ghost use Rattle.job_io.specs.whole_files.FilesUsed.{WritesFiles};
ghost use Rattle.job_io.specs.whole_files.InTurn.{LeavesFiles, LeavesFronts};
ghost use Rattle.job_io.specs.whole_files.Leaves.{KeepsOrGives};
ghost use Rattle.job_io.specs.graph_files.Cuts.{OfCut};
ghost use Rattle.job_io.specs.graph_files.Inner.GoingOn.{AreEachAtoms, GoesOnWriting, LeavesAtMostFronts};
ghost use Rattle.job_io.specs.graph_files.Made.{IsFault};

use crate::whole_files::{atom_name, index_name, write_file};
use gl_base::{AtomNo, Lines, MAX_ATOMS};
use gl_outside::Files;
use graph_atoms::atom_cut::cut;
use graph_atoms::atom_file::write_atom;
use graph_core::Graph;
use graph_text::generate::Writing;
use std::alloc::Global;

/// Cuts a graph into so many atoms by its growth, and writes the index to the file PREFIX.index and
/// each atom to its file, PREFIX.0.atom, PREFIX.1.atom, .., in turn. Where it fails each of these
/// files is what it was, or has a front of its bytes. Beside the index, the bytes of one atom at a
/// time stand in memory.
pub fn write_cut<F: Files>(
    alloc: Global,
    files: &mut F,
    prefix: &str,
    graph: &Graph,
    atoms: u16,
) -> Result<(), Writing>
    requires some { 1 ≤ atoms }
    requires few { atoms ≤ MAX_ATOMS }
    ensures written { OnOk result (OfCut graph.now atoms (λ text.
        LeavesFiles (cut_name prefix.now) text (atoms + 1)
        (F.state files.old) (F.state files.new))) }
    ensures fronts { ((F.state files.new).contents ≡ (F.state files.old).contents)
        ⊎ OfCut graph.now atoms (λ text.
        LeavesFronts (cut_name prefix.now) text (atoms + 1)
        (F.state files.old) (F.state files.new)) }
    ensures fault { IfErr result (λ why.
        IsFault why (F.state files.old).sinks.faults (F.state files.new).sinks.faults) }
    ensures wrote { WritesFiles (cut_names prefix.now atoms)
        (F.state files.old) (F.state files.new) }
{
    graph.n();
    let made = cut(alloc, graph, atoms)?;
    let name = index_name(alloc, prefix)?;
    write_file(files, name.as_str(), &made.index)?;
    write_atoms(alloc, files, prefix, &made.lines, atoms)
}

/// Writes each of so many atoms to its file, in turn.
fn write_atoms<F: Files>(
    alloc: Global,
    files: &mut F,
    prefix: &str,
    lines: &[Lines],
    atoms: u16,
) -> Result<(), Writing>
    requires count { length lines.now ≡ atoms }
    requires few { atoms ≤ MAX_ATOMS }
    requires atoms { AreEachAtoms lines.now }
    ensures written { OnOk result
        (GoesOnWriting prefix.now lines.now (length lines.now + 1)
        (F.state files.old) (F.state files.new)) }
    ensures fronts { LeavesAtMostFronts prefix.now lines.now
        (F.state files.old) (F.state files.new) }
    ensures fault { IfErr result (λ why.
        IsFault why (F.state files.old).sinks.faults (F.state files.new).sinks.faults) }
{
    for a in 0..atoms {
        write_lines(alloc, files, prefix, AtomNo(a), &lines[a as usize])?;
    }
    Ok(())
}

/// Writes an atom to its file.
fn write_lines<F: Files>(
    alloc: Global,
    files: &mut F,
    prefix: &str,
    atom: AtomNo,
    lines: &Lines,
) -> Result<(), Writing>
    requires { IsAtom (atom_of atom.0 lines.now) }
    ensures written { OnOk result (IfSome (F.state files.old).sinks.names (λ names.
        (F.state files.new).contents (atom_name prefix.now atom.0) ≡ Some
        (atom_bytes (atom_of atom.0 lines.now)))) }
    ensures front { KeepsOrGives (F.state files.old).sinks.names
        ((F.state files.old).contents (atom_name prefix.now atom.0))
        ((F.state files.new).contents (atom_name prefix.now atom.0))
        (λ held. (count : ℕ) × (held ≡ take count (atom_bytes (atom_of atom.0 lines.now)))) }
    ensures fault { IfErr result (λ why.
        IsFault why (F.state files.old).sinks.faults (F.state files.new).sinks.faults) }
    ensures wrote { WritesFiles (atom_name prefix.now atom.0 ∷ [])
        (F.state files.old) (F.state files.new) }
    ensures handed { OnOk result
        (AppendsNames (F.state files.old).sinks.names (F.state files.new).sinks.names
        (atom_name prefix.now atom.0 ∷ [])) }
{
    let bytes = write_atom(alloc, atom, lines)?;
    let name = atom_name(alloc, prefix, atom.0)?;
    write_file(files, name.as_str(), &bytes)
}
