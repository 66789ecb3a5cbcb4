//! The names of the files of a cut.
ghost use Rattle.std.specs.Prelude.{◌≡◌, IfOk, string_bytes};
ghost use Rattle.job_io.specs.whole_files.AtomNames.{atom_name, index_name};

use gl_base::NoMemory;
use itoa::Buffer;
use std::alloc::Global;

/// The name of the index, PREFIX.index.
pub fn index_name(alloc: Global, prefix: &str) -> Result<String, NoMemory>
    ensures { IfOk result (λ name. string_bytes name ≡ index_name prefix.now) }
{
    let mut name = String::from_str(alloc, prefix)?;
    name.push_str(".index")?;
    Ok(name)
}

/// The name of an atom's file, PREFIX.NUMBER.atom.
pub fn atom_name(alloc: Global, prefix: &str, atom: u16) -> Result<String, NoMemory>
    ensures { IfOk result (λ name. string_bytes name ≡ atom_name prefix.now atom) }
{
    let mut digits = Buffer::new();
    let mut name = String::from_str(alloc, prefix)?;
    name.push_str(".")?;
    name.push_str(digits.format(atom))?;
    name.push_str(".atom")?;
    Ok(name)
}
