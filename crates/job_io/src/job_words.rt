//! Reads the words of the command line: the verb, the file that it is about, and its options.
//!
//! The words are checked for form, then read with `clap` as one simple command, and then checked
//! for meaning. `specs/CommandLine.antt` says which words are a command line.

mod commands;
mod forms;
mod lines;
mod meanings;
mod words;

pub use words::{Words, WordsReading, read_words};
