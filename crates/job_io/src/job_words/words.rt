//! The public call, and what it answers.
ghost use Rattle.std.specs.Prelude.{◌≡◌, ◌<◌, ◌^◌, length, Err, Ok, IfOk};
ghost use Rattle.gl_base.specs.declared.memory.OrNoMemory.{OrNoMemory};
ghost use Rattle.job_io.specs.job_words.CommandLine.{IsCommandLine, command_line_of};
ghost use Rattle.job_io.specs.job_words.WordForms.{texts};

use crate::job_words::forms::first_unformed;
use crate::job_words::lines::read_line;
use crate::job_words::meanings::read_meaning;
use gl_base::{MakePlan, Name, OrNoMemory, UsageFault};
use std::alloc::Global;

/// A command line that was read.
#[derive(Drop)]
pub enum Words {
    /// Run the job in `file`, and tell how it went where `report` is set.
    Run { file: Name, report: bool },
    /// Go on with the run of the job in `file` from its store, and tell how it went where `report`
    /// is set.
    Resume { file: Name, report: bool },
    /// Make a graph by `plan`, in the files whose names begin with `prefix`.
    Make { prefix: Name, plan: MakePlan },
    /// Cut the graph of the job in `file` into atoms.
    Cut { file: Name },
    /// Make the store of the job in `file`.
    Init { file: Name },
}

/// Why no command line was read: the first fault of the words, which are none, or want of memory.
pub type WordsReading = OrNoMemory<UsageFault>;

/// Reads the words of the command line, the program's own name not among them.
///
/// The first fault is found in this order: the form of the words one by one, whether they are a
/// line (two texts, each option once and with a value), and then what the line means.
pub fn read_words(alloc: Global, words: &[String]) -> Result<Words, WordsReading>
    requires { length words.now < 4294967295 }
    ensures asked { IfOk result (IsCommandLine (texts words.now)) }
    ensures fault { (f : UsageFault) → result ≡ Err (OrNoMemory.Fault f)
        → command_line_of (texts words.now) ≡ Err f }
{
    if let Some(place) = first_unformed(words) {
        return Err(WordsReading::Fault(UsageFault::Form(place as u32)));
    }
    match read_line(alloc, words) {
        Ok(line) => read_meaning(alloc, &line),
        Err(reading) => Err(reading),
    }
}
