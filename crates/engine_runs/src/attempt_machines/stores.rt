//! The store of an attempt.
ghost use Rattle.std.specs.Prelude.{◌≡◌};
ghost use Rattle.engine_runs.specs.attempt_machines.Beginning.{if_taken};

use cluster_step::trace::Store;

/// The store, where there is a window, so that snapshots are taken.
pub(crate) fn store_where(window: Option<u32>, store: Store) -> Option<Store>
    ensures { result ≡ if_taken window store }
{
    match window {
        Some(_) => Some(store),
        None => None,
    }
}
