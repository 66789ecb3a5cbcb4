//! Want of memory: an answer of its own, never merged with another.
ghost use Rattle.std.specs.Prelude.{◌≡◌};

use std::alloc::{AllocError, AllocFailed};
use std::error::Error;
use std::fmt;

/// There was not enough memory.
#[derive(Clone, Copy, Debug)]
pub struct NoMemory;

impl fmt::Display for NoMemory {
    fn fmt<W: fmt::Write>(&self, f: &mut fmt::Formatter<W>) -> fmt::Result {
        f.write_str("out of memory")
    }
}

impl Error for NoMemory {}

impl From<AllocError> for NoMemory {
    fn from(_: AllocError) -> Self {
        NoMemory
    }
}

impl<T: Drop> From<AllocFailed<T>> for NoMemory {
    fn from(_: AllocFailed<T>) -> Self {
        NoMemory
    }
}

/// A fault of what was asked, or want of memory for the answer.
#[derive(Clone, Copy, Debug, Drop)]
pub enum OrNoMemory<F> {
    /// What was asked has this fault.
    Fault(F),
    /// There was not enough memory.
    NoMemory,
}

impl<F: fmt::Display> fmt::Display for OrNoMemory<F> {
    fn fmt<W: fmt::Write>(&self, f: &mut fmt::Formatter<W>) -> fmt::Result {
        match self {
            OrNoMemory::Fault(fault) => fault.fmt(f),
            OrNoMemory::NoMemory => NoMemory.fmt(f),
        }
    }
}

impl<F: Error> Error for OrNoMemory<F> {}

impl<F> From<AllocError> for OrNoMemory<F> {
    ghost use Rattle.gl_base.specs.declared.memory.OrNoMemory.TheVariants.{NoMemory};

    ghost from_gives = { λ _ fault. fault ≡ NoMemory };

    fn from(_: AllocError) -> Self {
        OrNoMemory::NoMemory
    }
}

impl<F> From<NoMemory> for OrNoMemory<F> {
    ghost use Rattle.gl_base.specs.declared.memory.OrNoMemory.TheVariants.{NoMemory};

    ghost from_gives = { λ _ fault. fault ≡ NoMemory };

    fn from(_: NoMemory) -> Self {
        OrNoMemory::NoMemory
    }
}
