//! Why the words of a command line were refused.

use std::fmt;
use thiserror::Error;

/// An option of the command line that takes a number.
#[derive(Clone, Copy, Debug)]
pub enum Opt {
    Number,
    Vertices,
    Edges,
    Weight,
}

impl fmt::Display for Opt {
    fn fmt<W: fmt::Write>(&self, f: &mut fmt::Formatter<W>) -> fmt::Result {
        f.write_str(match self {
            Opt::Number => "--number",
            Opt::Vertices => "--vertices",
            Opt::Edges => "--edges",
            Opt::Weight => "--weight",
        })
    }
}

/// The first fault of the words.
#[derive(Clone, Copy, Debug, Error)]
pub enum UsageFault {
    /// The word at this place, counted from 0, has not the form of a word.
    #[error("word {0} has not the form of a word")]
    Form(u32),
    /// The words are not those of a command.
    #[error("the words are not those of a command")]
    Line,
    /// The first word is no verb.
    #[error("the first word is no verb")]
    Verb,
    /// An option stands with a verb that does not take it.
    #[error("an option stands with a verb that does not take it")]
    NotHere,
    /// An option that the verb needs is absent.
    #[error("an option that the verb needs is absent")]
    Missing,
    /// The value of the option is not a number.
    #[error("the value of {0} is not a number")]
    Number(Opt),
    /// The value of the option is out of its range.
    #[error("the value of {0} is out of its range")]
    Range(Opt),
}
