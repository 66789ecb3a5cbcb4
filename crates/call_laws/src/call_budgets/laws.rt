//! Laws of how much a call makes. Each is the contract of a function that does nothing.
ghost use Rattle.std.specs.Prelude.{filter, length, true, ℕ, ◌*◌, ◌+◌, ◌<◌, ◌≡◌, ◌≤◌};
ghost use Rattle.call_laws.specs.attempts.Beginnings.{unheld_updates};
ghost use Rattle.call_laws.specs.attempts.EngineCalls.{EngineCall, IsEngineCall, call_order, last_beginning, made_of};
ghost use Rattle.call_laws.specs.attempts.Entries.{is_restart};
ghost use Rattle.call_laws.specs.attempts.Stores.{last_order, snapshots_of};
ghost use Rattle.call_laws.specs.call_budgets.Enough.{BoundsSteps};
ghost use Rattle.cluster_laws.specs.cluster_runs.Attempts.{Shared};
ghost use Rattle.seq_run.specs.Orders.{tasks_after};

/// Where no valid order has more updates after its last restart than this bound, a call makes at
/// most so many in each attempt, and it makes one attempt more than failures at most. Where its
/// order leaves a task, it has made fewer.
pub fn attempts_keep_to_the_bound()
    ensures made { (shared : Shared) (call : EngineCall) (bound : ℕ) → IsEngineCall shared call →
        BoundsSteps shared.graph shared.program bound →
        length (made_of call) ≤ (1 + length shared.failures) * bound }
    ensures left { (shared : Shared) (call : EngineCall) (bound : ℕ) → IsEngineCall shared call →
        BoundsSteps shared.graph shared.program bound →
        (v : ℕ) → tasks_after shared.graph shared.program (call_order call) v ≡ true →
        length (made_of call) < (1 + length shared.failures) * bound }
{}

/// The order of a call has no more entries than that of its base, the updates that it made, and a
/// restart for each failure and one where it resumes.
pub fn orders_grow_by_updates()
    ensures { (shared : Shared) (call : EngineCall) → IsEngineCall shared call →
        length (call_order call) ≤
        length call.base + 1 + length (made_of call) + length shared.failures }
{}

/// The last snapshot of a call, the restarts that it lacks of those with which the last attempt
/// began, and the updates that are outside it are no more than the call's order.
pub fn what_is_outside_is_of_the_order()
    ensures { (shared : Shared) (call : EngineCall) → IsEngineCall shared call →
        length (last_order call.base (snapshots_of call)) + length
        (filter is_restart (last_beginning call).front) + length (unheld_updates call.last)
        ≤ length (call_order call) + length
        (filter is_restart (last_order call.base (snapshots_of call))) }
{}
