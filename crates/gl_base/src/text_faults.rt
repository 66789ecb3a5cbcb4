//! Why a graph text was refused.
ghost use Rattle.std.specs.Prelude.{◌≡◌};
ghost use Rattle.gl_base.specs.FaultNames.{text_file_name, text_kind_name};

use std::fmt;
use thiserror::Error;

/// The texts that a graph is read from.
#[derive(Clone, Copy, Debug)]
pub enum TextFile {
    Vertices,
    Edges,
}

impl TextFile {
    /// What the text lists.
    pub fn name(self) -> &'static str
        ensures { result.now ≡ text_file_name self }
    {
        match self {
            TextFile::Vertices => "vertices",
            TextFile::Edges => "edges",
        }
    }
}

impl fmt::Display for TextFile {
    fn fmt<W: fmt::Write>(&self, f: &mut fmt::Formatter<W>) -> fmt::Result {
        f.write_str(self.name())
    }
}

/// What is wrong with a text.
#[derive(Clone, Copy, Debug)]
pub enum TextKind {
    /// A vertex line without exactly one field, or an edge line with fewer than two.
    Fields,
    /// A field is no number.
    Number,
    /// A number is above its limit.
    TooLarge,
    /// The vertex or the edge stood in an earlier line.
    Double,
    /// It is one more than there may be.
    TooMany,
    /// An end of an edge is no vertex.
    Unknown,
    /// Both ends of an edge are the same vertex.
    SelfLoop,
    /// An edge without a weight, where edges have one.
    NoWeight,
    /// The text has more bytes than it may have.
    TooLong,
}

impl TextKind {
    /// The fault in a word or two.
    pub fn name(self) -> &'static str
        ensures { result.now ≡ text_kind_name self }
    {
        match self {
            TextKind::Fields => "fields",
            TextKind::Number => "number",
            TextKind::TooLarge => "too large",
            TextKind::Double => "double",
            TextKind::TooMany => "too many",
            TextKind::Unknown => "unknown",
            TextKind::SelfLoop => "self-loop",
            TextKind::NoWeight => "no weight",
            TextKind::TooLong => "too long",
        }
    }
}

impl fmt::Display for TextKind {
    fn fmt<W: fmt::Write>(&self, f: &mut fmt::Formatter<W>) -> fmt::Result {
        f.write_str(self.name())
    }
}

/// The first fault of a text. Lines are counted from 1.
#[derive(Clone, Copy, Debug, Error)]
#[error("the text of the {file}, line {line}: {kind}")]
pub struct TextFault {
    pub file: TextFile,
    pub line: u32,
    pub kind: TextKind,
}
