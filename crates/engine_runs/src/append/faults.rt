//! Why a snapshot was not added.
use gl_base::Refused;
use std::alloc::AllocError;
use store::snap_journal::JournalFault;

/// Why the snapshot that is due was not added to the store.
#[derive(Clone, Copy)]
pub(crate) enum AppendFault {
    /// The store takes no snapshot more, or not this one.
    Full { stored: u32, length: u64 },
    /// A call on the disk failed.
    DiskFault,
    /// The record of the snapshot is not in the form of the store.
    NotInForm,
    /// There was not enough memory.
    NoMemory,
}

impl From<AllocError> for AppendFault {
    ghost use Rattle.std.specs.Prelude.{◌≡◌};
    ghost use Rattle.engine_runs.specs.declared.append.faults.AppendFault.TheVariants.{NoMemory};

    ghost from_gives = { λ _ fault. fault ≡ NoMemory };

    fn from(_: AllocError) -> Self {
        AppendFault::NoMemory
    }
}

impl From<gl_base::NoMemory> for AppendFault {
    ghost use Rattle.std.specs.Prelude.{◌≡◌};
    ghost use Rattle.engine_runs.specs.declared.append.faults.AppendFault.TheVariants.{NoMemory};

    ghost from_gives = { λ _ fault. fault ≡ NoMemory };

    fn from(_: gl_base::NoMemory) -> Self {
        AppendFault::NoMemory
    }
}
