//! Whether somebody waits for a lock.
ghost use Rattle.std.specs.Prelude.{◌≡◌};
ghost use Rattle.std.specs.List.{All, list_any};
ghost use Rattle.machine_core.specs.machine_rest.Inner.Looking.{AsksForOwn, is_at_lock};

use scope_locks::scope_pipe::Entered;
use scope_locks::vertex_locks::LockTable;

/// Whether one of these scopes waits for the lock that it asked for last.
pub fn somebody_waits(entered: &[Entered], locks: &LockTable) -> bool
    requires { All (AsksForOwn locks.now) entered.now }
    ensures { result ≡ list_any (is_at_lock locks.now) entered.now }
{
    for one in entered {
        if waits(one, locks) {
            return true;
        }
    }
    false
}

/// Whether the scope waits for the lock that it asked for last.
fn waits(one: &Entered, locks: &LockTable) -> bool
    requires { AsksForOwn locks.now one.now }
    ensures { result ≡ is_at_lock locks.now one.now }
{
    match one.lock() {
        Some(x) => locks.waits(x, one.scope()),
        None => false,
    }
}
