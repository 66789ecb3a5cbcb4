//! Scopes by their two numbers.
ghost use Rattle.std.specs.Prelude.{◌≡◌};
ghost use Rattle.gl_base.specs.scope_lists.Scopes.{is_scope};

use crate::ScopeId;

/// Whether the two are one scope.
#[inline]
pub fn is_scope(one: ScopeId, other: ScopeId) -> bool
    ensures { result ≡ is_scope one other }
{
    one.serial == other.serial && one.home.0 == other.home.0
}
