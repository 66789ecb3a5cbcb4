//! The base of a run.
ghost use Rattle.std.specs.Prelude.{◌≡◌, ◌≤◌, false, IsTrue, IfOk, IfErr};
ghost use Rattle.recovery.specs.Orders.{Shared};
ghost use Rattle.recovery.specs.Journals.{snapshots_in, LastErrorCause};
ghost use Rattle.recovery.specs.GoodStores.{IsGoodStore, IsGoodBase};
ghost use Rattle.recovery.specs.Recovered.{FitsGraph, IsStartBase, IsRecovered, IsHeaderOf};

use gl_base::{Base, NoMemory};
use gl_outside::Disk;
use graph_core::Graph;
use seq_run::start_values;
use std::alloc::Global;
use store::snap_journal::{Journal, JournalFault};
use update_api::Program;

/// How many bytes a store without snapshots has.
const NEW_STORE: u64 = 65;

/// The last snapshot of a store, or the start where there is none. After `DiskFault` open the store
/// again.
pub fn recover<D: Disk, P: Program>(
    alloc: Global,
    journal: &mut Journal<D>,
    graph: &Graph,
    program: &P,
) -> Result<Base, JournalFault>
    ensures base { IsTrue D.observable →
        IfOk result (IsRecovered graph.now (P.meaning program.now) journal.old.header
        (snapshots_in D.past journal.old)) }

    // From a good store for this graph and program comes a good base.
    ensures good { IsTrue D.observable → (shared : Shared) → shared.graph ≡ graph.now →
        shared.program ≡ P.meaning program.now →
        IsHeaderOf graph.now journal.old.header →
        IsGoodStore shared journal.old.header (snapshots_in D.past journal.old) →
        IfOk result (IsGoodBase shared) }

    // Whatever the disk holds: it has so many numbers.
    ensures fits { IsHeaderOf graph.now journal.old.header → IfOk result (FitsGraph graph.now) }

    ensures well { IfOk result (λ base. (journal.old.failed ≡ false) ×
        (journal.new.failed ≡ false)) }
    ensures refused { IfErr result
        (LastErrorCause (IsTrue D.observable) journal.old.failed journal.new.failed
        (D.faults journal.old.disk) (D.faults journal.new.disk)) }
    ensures past { IsTrue D.observable → D.past journal.new.disk ≡ D.past journal.old.disk }
    ensures kept { journal.new ≡ record journal.old {
      disk = journal.new.disk;
      failed = journal.new.failed;
    } }
    ensures same { D.same journal.old.disk journal.new.disk }
    ensures later { D.faults journal.old.disk ≤ D.faults journal.new.disk }
{
    match journal.last(alloc)? {
        Some(base) => Ok(base),
        None => {
            let base = start_base(alloc, graph, program)?;
            Ok(base)
        }
    }
}

/// The start, over a store without snapshots or without a store.
pub fn start_base<P: Program>(alloc: Global, graph: &Graph, program: &P) -> Result<Base, NoMemory>
    ensures { IfOk result (IsStartBase graph.now (P.meaning program.now)) }
{
    let values = start_values(alloc, graph, program)?;
    let edges = vec![in alloc; 0u64; graph.m() as usize]?;
    Ok(Base {
        number: 0,
        order: Vec::new(alloc),
        values,
        edges,
        length: NEW_STORE,
    })
}
