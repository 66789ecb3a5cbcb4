//! A task that is left.
ghost use Rattle.std.specs.Prelude.{◌≡◌, ℕ, ◌<◌, false, true, length, IfNone, IfSome};
ghost use Rattle.engine_runs.specs.finish.Gathered.{HasFlaggedTask, InEachTrace, IsAnyMachineOf, IsTaskIn, OfEach};
ghost use Rattle.graph_core.specs.DataGraph.{size};

use crate::finish::cores::core_of;
use cluster_step::trace::Trace;
use gl_base::{MachineNo, Vertex};
use placed_machines::any_machine::AnyMachine;
use update_api::Program;

/// A vertex that is a task of the machine that owns it, and vertex 0 where no machine has a task.
pub fn task_left<P: Program>(trace: &Trace<AnyMachine<P>>) -> Vertex
    ensures { HasFlaggedTask (IsAnyMachineOf P.meaning) trace.now →
        InEachTrace (IsAnyMachineOf P.meaning) trace.now (λ st o events c.
        IsTaskIn st c result.0) }
{
    match first_task(trace) {
        Some(v) => v,
        None => Vertex(0),
    }
}

/// The task of the first machine that has one.
fn first_task<P: Program>(trace: &Trace<AnyMachine<P>>) -> Option<Vertex>
    ensures some { IfSome result (λ v.
        InEachTrace (IsAnyMachineOf P.meaning) trace.now (λ st o events c. IsTaskIn st c v.0)) }
    ensures none { IfNone result ((a : ℕ) → a < length trace.now.now.machines.items →
        InEachTrace (IsAnyMachineOf P.meaning) trace.now (λ st o events c. (u : ℕ) →
        (c.machine a).part.task u ≡ false)) }
{
    for m in 0..trace.machines() {
        if let Some(v) = task_of(trace.machine(MachineNo(m as u16))) {
            return Some(v);
        }
    }
    None
}

/// A vertex that is a task of the machine; `None` exactly where none is.
fn task_of<P: Program>(member: &AnyMachine<P>) -> Option<Vertex>
    ensures some { IfSome result (λ v.
        OfEach (IsAnyMachineOf P.meaning) member.now (λ st a m. m.part.task v.0 ≡ true)) }
    ensures own { IfSome result (λ v.
        OfEach (IsAnyMachineOf P.meaning) member.now (λ st a m. (v.0 < size st.graph) ×
        (st.owner v.0 ≡ a))) }
    ensures none { IfNone result (OfEach (IsAnyMachineOf P.meaning) member.now (λ st a m. (u : ℕ) →
        m.part.task u ≡ false)) }
{
    let core = core_of(member);
    let place = core.numbers.tasks.some_task()?;
    Some(core.by_place[place.0 as usize])
}
