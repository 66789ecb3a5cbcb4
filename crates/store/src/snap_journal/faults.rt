//! Why a call on a store was refused.
ghost use Rattle.std.specs.Prelude.{◌≡◌};

use crate::store_format::StoreFault;
use gl_outside::Failed as DiskFailed;
use std::alloc::AllocError;
use thiserror::Error;

/// Why a call on a store was refused.
#[derive(Clone, Copy, Debug, PartialEq, Eq, Error)]
pub enum JournalFault {
    /// A call on the disk failed.
    #[error("the disk failed")]
    DiskFault,
    /// The bytes are no store for this header.
    #[error("{0}")]
    BadStore(StoreFault),
    /// There are as many snapshots or bytes as a store may have.
    #[error("the store is full: {stored} snapshots, {length} bytes")]
    Full { stored: u32, length: u64 },
    /// An earlier call answered `DiskFault`: the store has to be opened again.
    #[error("the store has to be opened again")]
    Failed,
    /// There was not enough memory.
    #[error("out of memory")]
    NoMemory,
}

impl From<DiskFailed> for JournalFault {
    ghost use Rattle.store.specs.declared.snap_journal.faults.JournalFault.TheVariants.{DiskFault};

    ghost from_gives = { λ _ fault. fault ≡ DiskFault };

    fn from(_: DiskFailed) -> Self {
        JournalFault::DiskFault
    }
}

impl From<AllocError> for JournalFault {
    ghost use Rattle.store.specs.declared.snap_journal.faults.JournalFault.TheVariants.{NoMemory};

    ghost from_gives = { λ _ fault. fault ≡ NoMemory };

    fn from(_: AllocError) -> Self {
        JournalFault::NoMemory
    }
}

impl From<gl_base::NoMemory> for JournalFault {
    ghost use Rattle.store.specs.declared.snap_journal.faults.JournalFault.TheVariants.{NoMemory};

    ghost from_gives = { λ _ fault. fault ≡ NoMemory };

    fn from(_: gl_base::NoMemory) -> Self {
        JournalFault::NoMemory
    }
}

impl From<StoreFault> for JournalFault {
    ghost use Rattle.store.specs.declared.snap_journal.faults.JournalFault.TheVariants.{BadStore};

    ghost from_gives = { λ error fault. fault ≡ BadStore error };

    fn from(fault: StoreFault) -> Self {
        JournalFault::BadStore(fault)
    }
}
