//! Why a job was refused.
ghost use Rattle.std.specs.Prelude.{◌≡◌};
ghost use Rattle.gl_base.specs.FaultNames.{key_name};

use crate::Name;
use std::fmt;
use thiserror::Error;

/// A key of a job, in the order in which keys are looked at.
#[derive(Clone, Copy, Debug)]
pub enum Key {
    Vertices,
    Edges,
    Directed,
    Algorithm,
    Source,
    Engine,
    Machines,
    Atoms,
    Pipeline,
    Budget,
    Window,
    Store,
    AtomsAt,
    Order,
    Failures,
}

impl Key {
    /// The key as a job spells it.
    pub fn name(self) -> &'static str
        ensures { result.now ≡ key_name self }
    {
        match self {
            Key::Vertices => "vertices",
            Key::Edges => "edges",
            Key::Directed => "directed",
            Key::Algorithm => "algorithm",
            Key::Source => "source",
            Key::Engine => "engine",
            Key::Machines => "machines",
            Key::Atoms => "atoms",
            Key::Pipeline => "pipeline",
            Key::Budget => "budget",
            Key::Window => "window",
            Key::Store => "store",
            Key::AtomsAt => "atoms_at",
            Key::Order => "order",
            Key::Failures => "failures",
        }
    }
}

impl fmt::Display for Key {
    fn fmt<W: fmt::Write>(&self, f: &mut fmt::Formatter<W>) -> fmt::Result {
        f.write_str(self.name())
    }
}

/// The first fault of a job.
#[derive(Debug, Drop, Error)]
pub enum JobFault {
    /// The bytes are no JSON object.
    #[error("the job is no JSON object")]
    NotJson,
    /// There are more bytes than a job may have.
    #[error("the job is too long")]
    TooLong,
    /// This key is none of a job; it is the least such in byte order.
    #[error("the key {:?} is none of a job", .0.as_str())]
    UnknownKey(Name),
    /// A key that is needed is absent.
    #[error("the job lacks the key {0}")]
    Missing(Key),
    /// The key's value is of another kind.
    #[error("the value of {0} is of the wrong kind")]
    WrongKind(Key),
    /// The key's value is out of its range: the number itself, a text's length in bytes, or the
    /// place of the first faulty failure.
    #[error("the value of {0} is out of its range: {1}")]
    OutOfRange(Key, u64),
    /// The key's value does not go with the job's algorithm.
    #[error("the value of {0} does not go with the algorithm")]
    Clash(Key),
}
