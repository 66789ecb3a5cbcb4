//! The atoms of a cut, read from their files and looked at.
ghost use Rattle.std.specs.Prelude.{◌≡◌, ◌≤◌, ◌<◌, ◌++◌, ◌∷◌, [], ℕ, List, Some, None, IfOk, IfErr, OnOk};
ghost use Rattle.gl_outside.specs.Names.{AppendsNames};
ghost use Rattle.job_io.specs.whole_files.AtomNames.{atom_name};
ghost use Rattle.job_io.specs.whole_files.FilesUsed.{ReadsFiles};
ghost use Rattle.job_io.specs.whole_files.InTurn.{first_names};
ghost use Rattle.graph_atoms.specs.atom_gather.IndexForm.{atoms_in, index_fault};
ghost use Rattle.graph_atoms.specs.atom_gather.Files.{form_of};
ghost use Rattle.job_io.specs.job_files.Inner.AtomsRead.{LooksAtAtoms, TakesAtom, TakesAtoms, TakesFile};
ghost use Rattle.job_io.specs.job_files.NamesRead.{atoms_names};

use crate::job_files::NoInput;
use crate::whole_files::{atom_name, front_of, index_name};
use gl_base::{AtomsFault, AtomsKind, MAX_ATOM_BYTES, MAX_ATOMS, NoMemory};
use gl_outside::Files;
use graph_atoms::atom_file::AtomView;
use graph_atoms::atom_gather::{AtomsReading, Cut, check_index, fault_in, gathered};
use graph_core::Graph;
use std::alloc::Global;

/// Reads the index and the atoms at a prefix, looks whether they are those of the graph, and tells
/// how they cut it. The first fault is answered.
pub fn read_cut<F: Files>(
    alloc: Global,
    files: &mut F,
    prefix: &str,
    graph: &Graph,
) -> Result<Cut, NoInput>
    ensures answer { LooksAtAtoms (F.state files.old) (F.state files.new).sources.faults
        prefix.now graph.now result }
    ensures read { ReadsFiles (atoms_names (F.state files.old) prefix.now)
        (F.state files.old) (F.state files.new) }
{
    let name = index_name(alloc, prefix)?;
    let index = read_file(alloc, files, name.as_str(), 0)?;
    let atoms = match check_index(&index) {
        Ok(atoms) => atoms,
        Err(fault) => return Err(NoInput::BadAtoms(fault_in(0, fault))),
    };
    let read = read_atoms(alloc, files, prefix, atoms)?;
    match gathered(alloc, graph, &index, &read) {
        Ok(made) => Ok(Cut::Told { atoms, of: made.of }),
        Err(AtomsReading::Fault(fault)) => Err(NoInput::BadAtoms(fault)),
        Err(AtomsReading::NoMemory) => Err(NoInput::NoMemory),
    }
}

/// The files of so many atoms.
fn read_atoms<F: Files>(
    alloc: Global,
    files: &mut F,
    prefix: &str,
    atoms: u16,
) -> Result<Vec<Vec<u8>>, NoInput>
    requires { atoms ≤ MAX_ATOMS }
    ensures read_all { IfOk result (λ read.
        TakesAtoms (F.state files.old) (F.state files.new).sources.faults prefix.now
        atoms (Ok read.items)) }
    ensures fault { IfErr result (λ why.
        TakesAtoms (F.state files.old) (F.state files.new).sources.faults
        prefix.now atoms (Err why)) }
    ensures read { ReadsFiles (first_names (atom_name prefix.now) atoms)
        (F.state files.old) (F.state files.new) }
{
    let mut read = Vec::new(alloc);
    for a in 0..atoms {
        let bytes = read_atom(alloc, files, prefix, a)?;
        push_file(&mut read, bytes)?;
    }
    Ok(read)
}

/// Adds a file behind these.
fn push_file(read: &mut Vec<Vec<u8>>, bytes: Vec<u8>) -> Result<(), NoMemory>
    ensures { OnOk result (read.new.items ≡ read.old.items ++ bytes ∷ []) }
{
    read.push(bytes)?;
    Ok(())
}

/// The file of an atom, which has its form.
fn read_atom<F: Files>(
    alloc: Global,
    files: &mut F,
    prefix: &str,
    atom: u16,
) -> Result<Vec<u8>, NoInput>
    requires { atom < MAX_ATOMS }
    ensures answer { TakesAtom (F.state files.old) (F.state files.new).sources.faults
        prefix.now atom result }
    ensures read { ReadsFiles (atom_name prefix.now atom ∷ [])
        (F.state files.old) (F.state files.new) }
    ensures handed { OnOk result
        (AppendsNames (F.state files.old).sources.names (F.state files.new).sources.names
        (atom_name prefix.now atom ∷ [])) }
{
    let name = atom_name(alloc, prefix, atom)?;
    let bytes = read_file(alloc, files, name.as_str(), atom + 1)?;
    match AtomView::read(&bytes) {
        Ok(_) => Ok(bytes),
        Err(fault) => Err(NoInput::BadAtoms(fault_in(atom + 1, fault))),
    }
}

/// The bytes of a file of a cut, by its number. It is refused where it has more bytes than such a
/// file may have.
fn read_file<F: Files>(
    alloc: Global,
    files: &mut F,
    name: &str,
    number: u16,
) -> Result<Vec<u8>, NoInput>
    ensures answer { TakesFile (F.state files.old) (F.state files.new).sources.faults
        name.now number result }
    ensures read { ReadsFiles (name.now ∷ []) (F.state files.old) (F.state files.new) }
    ensures handed { OnOk result
        (AppendsNames (F.state files.old).sources.names
        (F.state files.new).sources.names (name.now ∷ [])) }
{
    let bytes = front_of(alloc, files, name, MAX_ATOM_BYTES as usize)?;
    if bytes.len() as u64 > MAX_ATOM_BYTES {
        return Err(NoInput::BadAtoms(AtomsFault {
            file: number,
            kind: AtomsKind::TooLong,
            at: MAX_ATOM_BYTES,
        }));
    }
    Ok(bytes)
}
