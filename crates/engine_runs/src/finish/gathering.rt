//! The lists of a call.
ghost use Rattle.std.specs.Prelude.{◌≡◌, ◌≤◌, ◌<◌, All, List, ℕ, false, length, slice_index, slice_index_or, true, IfOk, IsErrOf};
ghost use Rattle.gl_base.specs.declared.entries.Entry.{Entry};
ghost use Rattle.engine_runs.specs.finish.Gathered.{ArePlacesOf, CallOpening, Cluster, Event, GathersFrom, IsTraceNow, IsAnyMachineOf, IsEntryOf, IsGathered, InEachTrace, Setting, placed_owner, reached_places};
ghost use Rattle.cluster_laws.specs.cluster_model.Machines.{completed};
ghost use Rattle.graph_core.specs.DataGraph.{size};

use crate::finish::fired::fired_places;
use crate::finish::logs::order_behind;
use crate::finish::numbers::vertex_numbers;
use cluster_step::trace::Trace;
use gl_base::{Entry, FailureAt, NoMemory};
use graph_core::Graph;
use placed_machines::Places;
use placed_machines::any_machine::AnyMachine;
use std::alloc::Global;
use update_api::Program;

/// The lists of a call: the order to which it led, how many updates each machine made, which of the
/// failures fired by their places, and the numbers of the vertices.
#[derive(Drop)]
pub(crate) struct CallLists {
    pub order: Vec<Entry>,
    pub done: Vec<u64>,
    pub fired: Vec<u16>,
    pub numbers: Vec<u64>,
}

/// Why the lists of a call were not gathered.
#[derive(Clone, Copy)]
pub(crate) enum GatherFault {
    /// The order has an update of a vertex that the graph has not.
    OtherGraph,
    /// There was not enough memory.
    NoMemory,
}

impl From<NoMemory> for GatherFault {
    ghost use Rattle.std.specs.Prelude.{◌≡◌};
    ghost use Rattle.engine_runs.specs.declared.finish.gathering.GatherFault.TheVariants as why;

    ghost from_gives = { λ _ fault. fault ≡ why.NoMemory };

    fn from(_: NoMemory) -> Self {
        GatherFault::NoMemory
    }
}

/// Gathers the lists of a call from its machines, where `front` is the order with which the newest
/// attempt began. `OtherGraph` comes only where a store of another graph was opened, whose disk
/// doesn't tell what it holds.
pub(crate) fn gather_call<P: Program>(
    alloc: Global,
    graph: &Graph,
    trace: &Trace<AnyMachine<P>>,
    places: &Places,
    failures: &[FailureAt],
    front: Vec<Entry>,
) -> Result<CallLists, GatherFault>
    requires places { ArePlacesOf graph.now (length trace.now.now.machines.items) places.now }
    requires failures { trace.now.failures ≡ failures.now }
    requires few { length failures.now ≤ 65536 }

    ensures gathered { IfOk result (λ lists. (lost : List Entry)
        (st : Setting) (o : CallOpening) (events : List Event) (c : Cluster) →
        IsTraceNow (IsAnyMachineOf P.meaning) trace.now st o events c →
        GathersFrom graph.now places.now front.items lost st o events c →
        IsGathered trace.now.failures st o events c lost lists) }
    ensures other { IsErrOf result GatherFault.OtherGraph → (lost : List Entry)
        (st : Setting) (o : CallOpening) (events : List Event) (c : Cluster) →
        IsTraceNow (IsAnyMachineOf P.meaning) trace.now st o events c →
        GathersFrom graph.now places.now front.items lost st o events c → ⊥ }

    // Told or not.
    ensures entries { IfOk result (λ lists. All (IsEntryOf graph.now) lists.order.items) }
    ensures numbers { IfOk result (λ lists. length lists.numbers.items ≡ size graph.now) }
{
    let Ok(order) = order_behind(alloc, trace, front) else {
        return Err(GatherFault::NoMemory);
    };
    if !are_of_graph(graph, &order) {
        drop(order);
        return Err(GatherFault::OtherGraph);
    }
    let Ok(counts) = counts_of(alloc, graph, trace, places, failures) else {
        drop(order);
        return Err(GatherFault::NoMemory);
    };
    Ok(CallLists {
        order,
        done: counts.0,
        fired: counts.1,
        numbers: counts.2,
    })
}

/// How many updates each machine made, the places of the failures that fired, and the numbers of
/// the vertices.
fn counts_of<P: Program>(
    alloc: Global,
    graph: &Graph,
    trace: &Trace<AnyMachine<P>>,
    places: &Places,
    failures: &[FailureAt],
) -> Result<(Vec<u64>, Vec<u16>, Vec<u64>), NoMemory>
    requires places { ArePlacesOf graph.now (length trace.now.now.machines.items) places.now }
    requires few { length failures.now ≤ 65536 }
    ensures many { IfOk result (λ counts.
        length counts.0.items ≡ length trace.now.now.machines.items) }
    ensures made { IfOk result (λ counts. (a : ℕ) → a < length trace.now.now.machines.items →
        InEachTrace (IsAnyMachineOf P.meaning) trace.now (λ st o events c.
        slice_index_or counts.0.items a 0 ≡ completed (c.machine a))) }
    ensures fired { IfOk result (λ counts.
        counts.1.items ≡ reached_places (λ m. slice_index_or counts.0.items m 0) 0 failures.now) }
    ensures count { IfOk result (λ counts. length counts.2.items ≡ size graph.now) }
    ensures numbers { IfOk result (λ counts. (v : ℕ) → v < size graph.now →
        InEachTrace (IsAnyMachineOf P.meaning) trace.now (λ st o events c.
        v < size st.graph → st.owner v ≡ placed_owner places.now.of.items places.now.owner.items v →
        slice_index counts.2.items v ≡ ((c.machine (st.owner v)).part.datum v).value)) }
{
    let done = trace.all_completed(alloc)?;
    let fired = fired_places(alloc, failures, &done)?;
    let numbers = vertex_numbers(alloc, graph, trace, places)?;
    Ok((done, fired, numbers))
}

/// Whether each update is of a vertex of the graph.
fn are_of_graph(graph: &Graph, order: &[Entry]) -> bool
    ensures yes { result ≡ true → All (IsEntryOf graph.now) order.now }
    ensures no { result ≡ false → All (IsEntryOf graph.now) order.now → ⊥ }
{
    order.iter().all(|entry| is_of_graph(graph, entry))
}

/// Whether the entry is no update, or one of a vertex of the graph.
fn is_of_graph(graph: &Graph, entry: &Entry) -> bool
    ensures yes { result ≡ true → IsEntryOf graph.now entry.now }
    ensures no { result ≡ false → IsEntryOf graph.now entry.now → ⊥ }
{
    match *entry {
        Entry::Go { vertex, .. } => vertex.0 < graph.n(),
        Entry::Restart { .. } => true,
    }
}
