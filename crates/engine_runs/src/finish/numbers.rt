//! The numbers of the vertices.
ghost use Rattle.std.specs.Prelude.{◌≡◌, ℕ, ◌<◌, length, slice_index, IfOk};
ghost use Rattle.engine_runs.specs.finish.Gathered.{ArePlacesOf, InEachTrace, IsAnyMachineOf, placed_owner};
ghost use Rattle.graph_core.specs.DataGraph.{size};

use crate::finish::cores::core_of;
use cluster_step::trace::Trace;
use gl_base::{NoMemory, Vertex};
use graph_core::Graph;
use placed_machines::Places;
use placed_machines::any_machine::AnyMachine;
use std::alloc::Global;
use update_api::Program;

/// The number of each vertex, as its owner has it.
pub(crate) fn vertex_numbers<P: Program>(
    alloc: Global,
    graph: &Graph,
    trace: &Trace<AnyMachine<P>>,
    places: &Places,
) -> Result<Vec<u64>, NoMemory>
    requires { ArePlacesOf graph.now (length trace.now.now.machines.items) places.now }
    ensures count { IfOk result (λ numbers. length numbers.items ≡ size graph.now) }
    ensures each { IfOk result (λ numbers. (v : ℕ) → v < size graph.now →
        InEachTrace (IsAnyMachineOf P.meaning) trace.now (λ st o events c.
        v < size st.graph → st.owner v ≡ placed_owner places.now.of.items places.now.owner.items v →
        slice_index numbers.items v ≡ ((c.machine (st.owner v)).part.datum v).value)) }
{
    let mut numbers = Vec::with_capacity(alloc, graph.n() as usize)?;
    for v in 0..graph.n() {
        numbers.push_reserved(number_of(graph, trace, places, Vertex(v)));
    }
    Ok(numbers)
}

/// The number of a vertex, as the machine has it that owns its atom.
fn number_of<P: Program>(
    graph: &Graph,
    trace: &Trace<AnyMachine<P>>,
    places: &Places,
    v: Vertex,
) -> u64
    requires places { ArePlacesOf graph.now (length trace.now.now.machines.items) places.now }
    requires inside { v.0 < size graph.now }
    ensures { InEachTrace (IsAnyMachineOf P.meaning) trace.now (λ st o events c.
        v.0 < size st.graph →
        st.owner v.0 ≡ placed_owner places.now.of.items places.now.owner.items v.0 →
        result ≡ ((c.machine (st.owner v.0)).part.datum v.0).value) }
{
    let atom = places.of[v.0 as usize];
    let owner = places.owner[atom.0 as usize];
    let core = core_of(trace.machine(owner));
    core.numbers.datum(v).value
}
