//! Lists that are looked up by scope.

mod scopes;

pub use scopes::is_scope;
