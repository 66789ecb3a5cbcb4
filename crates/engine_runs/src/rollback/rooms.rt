//! The store as the next attempt begins.
ghost use Rattle.std.specs.Prelude.{◌*◌, ◌+◌, ◌<◌, ◌≡◌, ◌≤◌, ◌^◌, length, IfErr, IfOk};
ghost use Rattle.graph_core.specs.DataGraph.{IsDataGraph, size};
ghost use Rattle.store.specs.declared.snap_journal.faults.JournalFault.TheVariants as fault;

use cluster_step::trace::{SavingMachine, Store, Trace};
use graph_core::Graph;
use store::snap_journal::JournalFault;

/// How many bytes a restart has in a store.
const RESTART_BYTES: u64 = 16;

/// How many bytes a coordinator can't count of a store, with the restarts that it lacks.
const STORE_END: u64 = 4294967296;

/// The store, whose newest snapshot has this number, with place for a restart for each failure.
/// `Full` comes where that is more than a coordinator can count.
pub(crate) fn store_behind<M: SavingMachine>(
    trace: &Trace<M>,
    graph: &Graph,
    newest: u32,
    failures: usize,
) -> Result<Store, JournalFault>
    ensures newest { IfOk result (λ store. store.newest ≡ newest) }
    ensures vertices { IfOk result (λ store. store.vertices ≡ size graph.now) }
    ensures graph { IfOk result (λ store. IsDataGraph graph.now) }
    ensures edges { IfOk result (λ store. store.edges ≡ length graph.now.edges) }
    ensures place { IfOk result (λ store.
        store.length ≡ trace.now.now.coordinator.saving.store_end + 16 * failures) }
    ensures short { IfOk result (λ store. store.length < 2 ^ 32) }
    ensures full { IfErr result (λ refused.
        (refused ≡ fault.Full newest trace.now.now.coordinator.saving.store_end) ×
        (2 ^ 32 ≤ trace.now.now.coordinator.saving.store_end + 16 * failures)) }
{
    let length = trace.coordinator().length();
    let needed = length.saturating_add(RESTART_BYTES.saturating_mul(failures as u64));
    if needed >= STORE_END {
        return Err(JournalFault::Full {
            stored: newest,
            length,
        });
    }
    Ok(Store {
        vertices: graph.n(),
        edges: graph.m(),
        newest,
        length: needed,
    })
}
