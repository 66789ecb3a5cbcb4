//! The words as one line.
ghost use Rattle.std.specs.Prelude.{◌≡◌, List, Some, None, IfOk, Err};
ghost use Rattle.clap.specs.Words.{kind_of};
ghost use Rattle.clap.specs.declared.error.kind.ErrorKind.{ErrorKind};
ghost use Rattle.gl_base.specs.declared.memory.OrNoMemory.{OrNoMemory};
ghost use Rattle.gl_base.specs.declared.usage_faults.UsageFault.{UsageFault};
ghost use Rattle.job_io.specs.job_words.CommandLine.{line_means};
ghost use Rattle.job_io.specs.job_words.Inner.Views.{line_view};
ghost use Rattle.job_io.specs.job_words.Lines.{line_of};
ghost use Rattle.job_io.specs.job_words.WordForms.{WordForm, texts};
ghost use Rattle.job_io.specs.job_words.Inner.Spelling.{Spells};

use crate::job_words::commands::command;
use crate::job_words::words::WordsReading;
use clap::Error;
use clap::error::ErrorKind;
use gl_base::UsageFault;
use std::alloc::Global;

/// What the words say as a line.
#[derive(Drop)]
pub struct Line<'a> {
    pub verb: &'a str,
    pub file: &'a str,
    pub report: bool,
    pub number: Option<&'a str>,
    pub vertices: Option<&'a str>,
    pub edges: Option<&'a str>,
    pub weight: Option<&'a str>,
}

impl Line<'_> {
    ghost use Rattle.job_io.specs.job_words.Meanings.{has_option};

    /// Whether an option stands there.
    pub fn has_option(&self) -> bool
        ensures { result ≡ has_option (line_view self.now) }
    {
        self.number.is_some()
            || self.vertices.is_some()
            || self.edges.is_some()
            || self.weight.is_some()
    }
}

/// `clap`'s error, of which only want of memory is no fault of the words.
fn fault_of(error: &Error) -> WordsReading
    ensures memory { kind_of error.now ≡ ErrorKind.OutOfMemory → result ≡ OrNoMemory.NoMemory }
    ensures line { (f : UsageFault) → result ≡ OrNoMemory.Fault f → UsageFault.Line ≡ f }
{
    match error.kind() {
        ErrorKind::OutOfMemory => WordsReading::NoMemory,
        _ => WordsReading::Fault(UsageFault::Line),
    }
}

/// Reads formed words as a line. The only fault that it finds is `Line`.
pub fn read_line<'a>(alloc: Global, words: &'a [String]) -> Result<Line<'a>, WordsReading>
    ensures ok { (ts : List WordForm) → Spells ts (texts words.entry.now)
        → IfOk result (λ l. line_of ts ≡ Some (line_view l)) }
    ensures fault { (ts : List WordForm) (f : UsageFault) → Spells ts (texts words.entry.now)
        → result ≡ Err (OrNoMemory.Fault f) → line_means (line_of ts) ≡ Err f }
{
    let matches = match command(alloc)?.try_get_matches_from(words) {
        Ok(matches) => matches,
        Err(error) => return Err(fault_of(&error)),
    };
    match (matches.get_str("verb"), matches.get_str("file")) {
        (Some(verb), Some(file)) => Ok(Line {
            verb,
            file,
            report: matches.get_flag("report"),
            number: matches.get_str("number"),
            vertices: matches.get_str("vertices"),
            edges: matches.get_str("edges"),
            weight: matches.get_str("weight"),
        }),
        _ => Err(WordsReading::Fault(UsageFault::Line)),
    }
}
