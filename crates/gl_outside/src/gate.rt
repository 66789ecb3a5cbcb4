//! Gates, which see each update as it begins.

/// A gate is passed as an update begins. It may hold the update up, so that a test can order
/// updates.
pub trait Gate {
    /// An ordinary update of the vertex with this identifier begins.
    fn pass(&self, id: u64);
}

/// The gate that does nothing.
#[derive(Clone, Copy)]
pub struct OpenGate;

impl Gate for OpenGate {
    fn pass(&self, _id: u64) {}
}
