//! What a seat knows.
use std::collections::LinkedList;

/// A word that a seat read, or with which it gave a link back. No value of it is made.
pub struct Sight<Q> {
    /// Where the word stands.
    pub word: u64,
    /// The number that the seat found there, or that it gave back.
    pub number: u64,
    /// The link that it gave back, with what was on it as it was taken.
    pub given: Option<(u64, Q)>,
}

/// What a seat at a table knows. No value of it is made.
pub struct View<P, Q> {
    /// The parts that the seat has, as they were at its last step.
    pub parts: LinkedList<P>,
    /// The link that it holds, with what was on it as it was taken.
    pub link: Option<(u64, Q)>,
    /// How often it has raised the halt.
    pub raised: u64,
    /// What it has seen so far, the last sight first.
    pub seen: LinkedList<Sight<Q>>,
}
