//! Word that a scope has all its locks.
ghost use Rattle.std.specs.Prelude.{◌≡◌};
ghost use Rattle.machine_core.specs.machine_scopes.Asking.{IsOrderly, SameSettings, CanBecomeReady, HasReceivedMessage, Ready};

use crate::machine_parts::Core;
use gl_base::ScopeId;

/// Word has come that a scope of this home has all its locks: it is ready. It takes no memory.
pub fn receive_ready(core: &mut Core, scope: ScopeId)
    requires orderly { IsOrderly core.old }
    requires can { CanBecomeReady core.old scope }
    ensures orderly { IsOrderly core.new }
    ensures settings { SameSettings core.old core.new }
    ensures received { HasReceivedMessage core.old core.new (Ready scope) }
    ensures rest { core.new ≡ record core.old { pipe = core.new.pipe } }
{
    core.pipe.ready(scope);
}
