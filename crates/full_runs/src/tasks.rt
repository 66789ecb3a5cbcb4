//! Which vertices are tasks after an update.
ghost use Rattle.std.specs.Prelude.{◌≡◌, ℕ, ◌<◌, ◌==◌, ◌&&◌, ◌||◌, not, length, All};
ghost use Rattle.seq_run.specs.Inner.Waking.{is_woken_along};
ghost use Rattle.task_sets.specs.vertex_queue.Flags.{is_flagged};
ghost use Rattle.full_runs.specs.Inner.SoFar.{is_woken_by};

use gl_base::Vertex;
use graph_core::Half;
use task_sets::vertex_queue::VertexQueue;
use update_api::Woken;

/// The vertex is no task any more, and those become tasks that its update wakes along these
/// half-edges.
pub fn retask(tasks: &mut VertexQueue, v: Vertex, woken: Woken, halves: &[Half])
    requires vertex { v.0 < length tasks.old }
    requires ends { All (λ h. h.other.0 < length tasks.old) halves.now }
    ensures count { length tasks.new ≡ length tasks.old }
    ensures tasks { (u : ℕ) → is_flagged tasks.new u
        ≡ (is_woken_by woken halves.now u || (is_flagged tasks.old u && not (u == v.0))) }
{
    tasks.remove(v);
    for half in halves {
        add_if(tasks, half.other, is_woken_along(woken, half.out));
    }
}

/// Makes the vertex a task, if this says so.
pub(crate) fn add_if(tasks: &mut VertexQueue, u: Vertex, is_woken: bool)
    requires { u.0 < length tasks.old }
    ensures count { length tasks.new ≡ length tasks.old }
    ensures tasks { (x : ℕ) →
        is_flagged tasks.new x ≡ ((is_woken && u.0 == x) || is_flagged tasks.old x) }
{
    if is_woken {
        tasks.add(u);
    }
}

/// Whether an update wakes the other end of an edge, which leads out of its vertex or not.
fn is_woken_along(woken: Woken, out: bool) -> bool
    ensures { result ≡ is_woken_along woken out }
{
    match woken {
        Woken::Nobody => false,
        Woken::Ahead => out,
        Woken::Around => true,
    }
}
