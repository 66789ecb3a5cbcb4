//! Whether some vertex has to be updated.
ghost use Rattle.std.specs.Prelude.{◌≡◌, true, false};
ghost use Rattle.machine_core.specs.machine_rest.Inner.Looking.{HasNoWork, HasWork};

use task_sets::task_sched::TaskSet;

/// Whether a vertex is a task, or pending and not admitted.
pub fn has_work(tasks: &TaskSet) -> bool
    ensures some { result ≡ true → HasWork tasks.now }
    ensures none { result ≡ false → HasNoWork tasks.now }
{
    tasks.look().is_some() || tasks.some_task().is_some()
}
