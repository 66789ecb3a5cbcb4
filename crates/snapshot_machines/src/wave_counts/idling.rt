//! Whether a machine is idle.
ghost use Rattle.std.specs.Prelude.{◌≡◌, ◌↔◌, true};
ghost use Rattle.snapshot_machines.specs.wave_counts.Idle.{HasNothingToDo};

use scope_locks::scope_pipe::ScopePipe;
use task_sets::task_sched::TaskSet;

/// Whether no vertex is a task or pending, no scope of this machine is in flight, and none has come
/// to it for locks. Where no vertex is a task it looks at each vertex.
pub fn is_at_rest(tasks: &TaskSet, pipe: &ScopePipe) -> bool
    ensures { (result ≡ true) ↔ HasNothingToDo tasks.now pipe.now }
{
    pipe.flight_count() == 0
        && pipe.entered_count() == 0
        && tasks.some_pending().is_none()
        && tasks.some_task().is_none()
}
