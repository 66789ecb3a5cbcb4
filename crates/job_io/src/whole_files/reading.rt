//! Reads a file whole, or the front of one that is too long.
ghost use Rattle.std.specs.Prelude.{◌≡◌, ℕ, ◌≤◌, [], ◌∷◌, List, None, OnOk};
ghost use Rattle.std.specs.Io.KnownBytes.{Consumes};
ghost use Rattle.gl_outside.specs.Names.{AppendsNames};
ghost use Rattle.job_io.specs.declared.whole_files.reading.NotRead.TheVariants.{NoMemory};
ghost use Rattle.job_io.specs.whole_files.FilesRead.{ReadsFront, not_read_of};
ghost use Rattle.job_io.specs.whole_files.FilesUsed.{ReadsFiles};

use gl_outside::{Files, OpenFault, Source, SourceOf};
use std::alloc::{AllocError, Global};

/// How many bytes are read at a time.
const PIECE: usize = 4096;

/// Why a file was not read.
#[derive(Clone, Copy)]
pub enum NotRead {
    /// It could not be opened or read.
    ReadFault,
    /// There was not enough memory.
    NoMemory,
}

impl From<OpenFault> for NotRead {
    ghost from_gives = { λ fault not_read. not_read ≡ not_read_of fault };

    fn from(fault: OpenFault) -> Self {
        match fault {
            OpenFault::Failed => NotRead::ReadFault,
            OpenFault::NoMemory => NotRead::NoMemory,
        }
    }
}

impl From<AllocError> for NotRead {
    ghost from_gives = { λ _ not_read. not_read ≡ NoMemory };

    fn from(_: AllocError) -> Self {
        NotRead::NoMemory
    }
}

/// The bytes of the file of this name, or more than `most` of them where there are more.
pub fn front_of<F: Files>(
    alloc: Global,
    files: &mut F,
    name: &str,
    most: usize,
) -> Result<Vec<u8>, NotRead>
    ensures answer { ReadsFront most (F.state files.old).sources.names
        ((F.state files.old).contents name.now)
        (F.state files.old).sources.faults (F.state files.new).sources.faults result }
    ensures read { ReadsFiles (name.now ∷ []) (F.state files.old) (F.state files.new) }
    ensures handed { OnOk result
        (AppendsNames (F.state files.old).sources.names
        (F.state files.new).sources.names (name.now ∷ [])) }
{
    let file = files.open_source(name)?;
    read_front(alloc, &mut SourceOf::new(files, file), most)
}

/// The bytes of a source, or more than `most` of them where there are more.
fn read_front<S: Source>(alloc: Global, source: &mut S, most: usize) -> Result<Vec<u8>, NotRead>
    ensures answer { ReadsFront most None (S.left source.old) (S.faults source.old)
        (S.faults source.new) result }
    ensures later { S.faults source.old ≤ S.faults source.new }
    ensures same { S.same source.old source.new }
{
    let mut bytes = Vec::new(alloc);
    let mut piece = [0; PIECE];
    while bytes.len() <= most {
        match source.read(&mut piece) {
            Ok(0) => return Ok(bytes),
            Ok(count) => bytes.extend_from_slice(&piece[..count])?,
            Err(_) => return Err(NotRead::ReadFault),
        }
    }
    Ok(bytes)
}
