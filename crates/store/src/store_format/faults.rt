//! Why a store was refused.
use crate::store_format::{Digest, ProgramKey};
use thiserror::Error;

/// What is wrong with a store. A place counts its bytes from 0.
#[derive(Clone, Copy, Debug, PartialEq, Eq, Error)]
pub enum StoreFault {
    /// A byte is missing. The place is that of the first missing byte: how many bytes there are.
    #[error("at byte {0}: a byte is missing")]
    Torn(u64),
    /// A field has none of its values. The place is that of its first byte.
    #[error("at byte {0}: a field has none of its values")]
    BadByte(u64),
    /// It was made for so many machines.
    #[error("the store is for {kept} machines, and not for {given}")]
    Machines { kept: u16, given: u16 },
    /// It was made for another graph.
    #[error("the store is for another graph")]
    Graph { kept: Digest, given: Digest },
    /// It was made for another program.
    #[error("the store is for another program")]
    Program { kept: ProgramKey, given: ProgramKey },
    /// It has so many snapshots, and was to have none.
    #[error("the store has {0} snapshots already")]
    Used(u32),
    /// It has so many bytes, and was to have none.
    #[error("the file has {0} bytes already")]
    NotEmpty(u64),
}
