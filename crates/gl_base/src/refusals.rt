//! Why an event didn't happen.
use crate::memory::NoMemory;
use std::alloc::AllocError;
use std::error::Error;
use std::fmt;

/// Why an event didn't happen.
#[derive(Clone, Copy, Debug, PartialEq, Eq)]
pub enum Refused {
    /// It may not happen now.
    NotNow,
    /// There was not enough memory.
    NoMemory,
}

impl fmt::Display for Refused {
    fn fmt<W: fmt::Write>(&self, f: &mut fmt::Formatter<W>) -> fmt::Result {
        match self {
            Refused::NotNow => f.write_str("not now"),
            Refused::NoMemory => NoMemory.fmt(f),
        }
    }
}

impl Error for Refused {}

impl From<AllocError> for Refused {
    ghost use Rattle.std.specs.Prelude.{◌≡◌};
    ghost use Rattle.gl_base.specs.declared.refusals.Refused.TheVariants.{NoMemory};

    ghost from_gives = { λ _ refused. refused ≡ NoMemory };

    fn from(_: AllocError) -> Self {
        Refused::NoMemory
    }
}

impl From<NoMemory> for Refused {
    ghost use Rattle.std.specs.Prelude.{◌≡◌};
    ghost use Rattle.gl_base.specs.declared.refusals.Refused.TheVariants.{NoMemory};

    ghost from_gives = { λ _ refused. refused ≡ NoMemory };

    fn from(_: NoMemory) -> Self {
        Refused::NoMemory
    }
}
