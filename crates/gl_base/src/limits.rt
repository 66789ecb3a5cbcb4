//! How much there may be of each thing.

/// The number of a vertex that was not reached. It is no identifier.
pub const INF: u64 = 9223372036854775807;

/// The greatest identifier of a vertex.
pub const MAX_ID: u64 = INF - 1;

/// How many vertices a graph may have.
pub const MAX_VERTICES: usize = 1048576;

/// How many edges a graph may have.
pub const MAX_EDGES: usize = 4194304;

/// How many bytes a graph text may have.
pub const MAX_TEXT_BYTES: u64 = 1073741824;

/// How many bytes a job may have.
pub const MAX_JOB_BYTES: usize = 1048576;

/// How many bytes the name of a file may have. It has one at least.
pub const MAX_NAME_BYTES: usize = 255;

/// How many machines a cluster may have. It has one at least.
pub const MAX_MACHINES: u16 = 16;

/// How many atoms a cut may have. It has one at least.
pub const MAX_ATOMS: u16 = 1024;

/// How many bytes the file of an index or an atom may have.
pub const MAX_ATOM_BYTES: u64 = 134217728;

/// How many snapshots a store may have.
pub const MAX_SNAPSHOTS: u32 = 4096;

/// How many bytes a store may have.
pub const MAX_STORE_BYTES: u64 = 1073741824;
