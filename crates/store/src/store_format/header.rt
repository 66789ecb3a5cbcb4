//! What a store is for.

/// The SHA-256 of a graph.
#[derive(Clone, Copy, Debug, PartialEq, Eq)]
pub struct Digest(pub [u8; 32]);

/// The program that a store is for: its algorithm (1 levels, 2 components, 3 paths, 4 colours, 5
/// cores), whether edges have a direction (1) or not (0), and its source.
#[derive(Clone, Copy, Debug, PartialEq, Eq)]
pub struct ProgramKey {
    pub algorithm: u8,
    pub directed: u8,
    pub source: u64,
}

/// What a store is for: so many machines, a program, and a graph of `n` vertices and `m` edges with
/// this digest. `algorithm` and `directed` are as in `ProgramKey`, and `source` is 0 where the
/// algorithm has none.
#[derive(Clone, Copy)]
pub struct Header {
    pub machines: u16,
    pub algorithm: u8,
    pub directed: u8,
    pub source: u64,
    pub n: u32,
    pub m: u32,
    pub digest: Digest,
}
