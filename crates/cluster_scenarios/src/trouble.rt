//! Why a line is not played.
use gl_base::NoMemory;
use std::alloc::{AllocError, AllocFailed};

/// Why a line is not played.
#[derive(Clone, Copy)]
pub enum Trouble {
    /// The cluster found no memory for what should happen, and nothing that is read of it has
    /// changed.
    NoMemory,
    /// Anything else, in words that are printed behind the line.
    Because(&'static str),
}

impl Trouble {
    /// Returns the words that are printed behind the line.
    pub fn words(self) -> &'static str {
        match self {
            Trouble::NoMemory => "the cluster found no memory",
            Trouble::Because(why) => why,
        }
    }
}

impl From<NoMemory> for Trouble {
    fn from(_: NoMemory) -> Self {
        Trouble::Because("memory is missing")
    }
}

impl From<AllocError> for Trouble {
    fn from(_: AllocError) -> Self {
        Trouble::Because("memory is missing")
    }
}

impl<T: Drop> From<AllocFailed<T>> for Trouble {
    fn from(_: AllocFailed<T>) -> Self {
        Trouble::Because("memory is missing")
    }
}
