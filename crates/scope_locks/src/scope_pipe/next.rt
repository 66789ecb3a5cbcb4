//! What a scope wants next.
ghost use Rattle.std.specs.Prelude.{◌≡◌, slice_get};
ghost use Rattle.gl_base.specs.scope_lists.Scopes.{mode_at};
ghost use Rattle.scope_locks.specs.scope_pipe.Entered.{next_at};

use gl_base::{MachineNo, Mode, Vertex};

/// What a scope that has come to a machine wants next there.
#[derive(Clone, Copy, PartialEq, Eq)]
pub enum Next {
    /// The lock of a vertex.
    Lock(Vertex, Mode),
    /// To go on to another machine.
    Forward(MachineNo),
    /// To go home, with all its locks.
    Home,
}

/// What a scope of this centre wants next that asked for so many locks of `part`, and has the
/// machines `rest` still to come.
#[inline(always)]
pub fn next_at(centre: Vertex, part: &[Vertex], place: usize, rest: &[MachineNo]) -> Next
    ensures { result ≡ next_at centre (slice_get part.now place) rest.now }
{
    match (part.get(place), rest.first()) {
        (Some(vertex), _) => Next::Lock(*vertex, mode_at(centre, *vertex)),
        (None, Some(machine)) => Next::Forward(*machine),
        (None, None) => Next::Home,
    }
}

/// How the scope of this centre locks a vertex.
#[inline(always)]
fn mode_at(centre: Vertex, vertex: Vertex) -> Mode
    ensures { result ≡ mode_at centre.0 vertex.0 }
{
    if vertex.0 == centre.0 {
        Mode::Writer
    } else {
        Mode::Reader
    }
}
