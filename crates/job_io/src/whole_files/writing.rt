//! Writes a file whole.
ghost use Rattle.std.specs.Prelude.{◌≡◌, ℕ, ◌≤◌, [], ◌∷◌, List, take, Some, Err, IfSome, OnOk};
ghost use Rattle.std.specs.Io.KnownBytes.{Appends};
ghost use Rattle.gl_outside.specs.Faults.{Rose};
ghost use Rattle.gl_outside.specs.Fronts.{AppendsFront};
ghost use Rattle.gl_outside.specs.Names.{AppendsNames};
ghost use Rattle.graph_text.specs.declared.generate.making.Writing.TheVariants.{WriteFault, NoMemory};
ghost use Rattle.job_io.specs.whole_files.FilesUsed.{WritesFiles};
ghost use Rattle.job_io.specs.whole_files.Leaves.{KeepsOrGives, writing_of};

use gl_outside::{Files, OpenFault, Sink, SinkOf, write_all};
use graph_text::generate::Writing;

/// Makes the file of this name, or empties it, and writes the bytes. Where it fails the file is
/// what it was, or has a front of the bytes.
pub fn write_file<F: Files>(files: &mut F, name: &str, bytes: &[u8]) -> Result<(), Writing>
    ensures written { OnOk result (IfSome (F.state files.old).sinks.names (λ names.
        (F.state files.new).contents name.now ≡ Some bytes.now)) }
    ensures front { KeepsOrGives (F.state files.old).sinks.names
        ((F.state files.old).contents name.now) ((F.state files.new).contents name.now)
        (λ held. (count : ℕ) × (held ≡ take count bytes.now)) }
    ensures fault { result ≡ Err WriteFault →
        Rose (F.state files.old).sinks.faults (F.state files.new).sinks.faults }
    ensures no_memory { result ≡ Err NoMemory →
        (F.state files.new).contents ≡ (F.state files.old).contents }
    ensures wrote { WritesFiles (name.now ∷ []) (F.state files.old) (F.state files.new) }
    ensures handed { OnOk result
        (AppendsNames (F.state files.old).sinks.names
        (F.state files.new).sinks.names (name.now ∷ [])) }
{
    let file = match files.open_sink(name) {
        Ok(file) => file,
        Err(fault) => return Err(not_created(fault)),
    };
    write_bytes(&mut SinkOf::new(files, file), bytes)
}

/// Writes the bytes.
fn write_bytes<K: Sink>(sink: &mut K, bytes: &[u8]) -> Result<(), Writing>
    ensures written { OnOk result (Appends (K.held sink.old) (K.held sink.new) bytes.now) }
    ensures front { AppendsFront (K.held sink.old) (K.held sink.new) bytes.now }
    ensures fault { result ≡ Err WriteFault → Rose (K.faults sink.old) (K.faults sink.new) }
    ensures memory { result ≡ Err NoMemory → ⊥ }
    ensures later { K.faults sink.old ≤ K.faults sink.new }
    ensures same { K.same sink.old sink.new }
{
    write_all(sink, bytes)?;
    Ok(())
}

/// Why a file was not written that was not opened.
pub fn not_created(fault: OpenFault) -> Writing
    ensures { result ≡ writing_of fault }
{
    match fault {
        OpenFault::Failed => Writing::WriteFault,
        OpenFault::NoMemory => Writing::NoMemory,
    }
}
