//! Scopes in flight.
use gl_base::{ScopeId, Vertex};

/// A scope that was admitted here and is in flight.
#[derive(Clone, Copy)]
pub struct Flight {
    pub scope: ScopeId,
    pub centre: Vertex,
}
