//! The machines of a call go on on threads.
ghost use Rattle.std.specs.Prelude.{List, ◌≡◌, ℕ, IfOk};
ghost use Rattle.engine_runs.specs.Calls.{CallOpening, Header, IsKnownAt, IsSameCall, Setting};

use crate::calls::StoredCall;
use gl_base::NoMemory;
use node_threads::run_nodes;
use std::alloc::Global;
use std::sync::Wait;
use std::thread::Threads;
use update_api::Program;

/// The machines of the call go on, each on a thread, until one has reached the count of a failure,
/// no ticket is left, a record is due, the end, or nothing moves for long. No snapshot is
/// acknowledged, and no attempt begins. A machine that is alone goes on nowhere, and neither does
/// one where no ticket is left. `NoMemory` drops the call.
pub(crate) fn go_on_threads<R: Threads + Wait + Sync, P: Program + Send + Sync>(
    rt: &R,
    alloc: Global,
    call: StoredCall<P>,
) -> Result<StoredCall<P>, NoMemory>
    ensures known { IfOk result (λ on. (header : Header) (start bodies : List (List ℕ))
        (st : Setting) (o : CallOpening) →
        IsKnownAt P.meaning call.trace call header start bodies st o →
        IsKnownAt P.meaning on.trace on header start bodies st o) }
    ensures same { IfOk result (λ on. on ≡ record call { trace = on.trace }) }
    ensures attempt { IfOk result (IsSameCall call) }
{
    if call.trace.machines() < 2 || call.trace.left() == 0 {
        return Ok(call);
    }
    let StoredCall {
        trace,
        places,
        restarts,
        order,
        lost,
        snapshots,
        saves_end,
    } = call;
    let trace = run_nodes(rt, alloc, trace)?;
    Ok(StoredCall {
        trace,
        places,
        restarts,
        order,
        lost,
        snapshots,
        saves_end,
    })
}
