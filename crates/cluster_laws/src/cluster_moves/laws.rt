//! Laws of what may happen next. Each is the contract of a function that does nothing. They say
//! that something may happen, and not that it does.
ghost use Rattle.std.specs.Prelude.{◌≡◌, ◌⊎◌, ℕ, ◌<◌, false, List};
ghost use Rattle.gl_base.specs.declared.entries.Entry.{Entry};
ghost use Rattle.gl_base.specs.declared.scopes.ScopeId.{ScopeId};
ghost use Rattle.graph_core.specs.DataGraph.{size};
ghost use Rattle.cluster_laws.specs.cluster_core.Actions.{Action, MayHappen, after};
ghost use Rattle.cluster_laws.specs.cluster_core.Places.{ArePlaces};
ghost use Rattle.cluster_laws.specs.cluster_core.Replays.{IsReplay, tasks_of};
ghost use Rattle.cluster_laws.specs.cluster_core.Runs.{IsStart, IsActionRun};
ghost use Rattle.cluster_laws.specs.cluster_core.Settings.{Setting, IsSetting, Locking};
ghost use Rattle.cluster_laws.specs.cluster_core.Stages.{Stage};
ghost use Rattle.cluster_laws.specs.cluster_core.Worlds.{World};
ghost use Rattle.cluster_laws.specs.cluster_moves.Due.{AreFlightsCounted, AreDue, CanWork, IsOver, IsStill};

/// While a ticket is left and scopes are in their places, a machine may do something, or nothing is
/// in flight and nothing on the way. Where no message is on the way and no scope is ready, the last
/// lock in canonical order for which a scope waits has no holder.
pub fn something_may_be_done()
    ensures { (st : Setting) (w : World) (stage : ScopeId → Stage) → IsSetting st →
        ArePlaces st w stage → AreDue w → 0 < w.left →
        CanWork st w ⊎ IsStill w }
{}

/// Each action that may happen leaves the vertex of each scope in flight pending or a task.
pub fn actions_keep_due()
    ensures { (st : Setting) (w : World) (action : Action) (stage : ScopeId → Stage) →
        ArePlaces st w stage → MayHappen st w action → AreDue w → AreDue (after st w action) }
{}

/// Each action that may happen leaves each machine with the number of its scopes in flight, which
/// with locks is never above the pipeline.
pub fn actions_keep_counts()
    ensures { (st : Setting) (w : World) (action : Action) (stage : ScopeId → Stage) →
        ArePlaces st w stage → MayHappen st w action → AreFlightsCounted st w →
        AreFlightsCounted st (after st w action) }
{}

/// At the start no scope is in flight.
pub fn starts_are_counted()
    ensures counted { (st : Setting) (w : World) → IsStart st w → AreFlightsCounted st w }
    ensures due { (st : Setting) (w : World) → IsStart st w → AreDue w }
{}

/// Where scopes take locks: after every list of actions from a start on, while a ticket is left, a
/// machine may do something, or all is over: no vertex is a task or pending, no scope is in flight,
/// and no message on the way.
pub fn never_stuck()
    ensures { (st : Setting) (start : World) (actions : List Action) (w : World) →
        IsSetting st → st.engine ≡ Locking → 0 < st.pipeline → IsStart st start →
        IsActionRun st start actions w → 0 < w.left →
        CanWork st w ⊎ IsOver st w }
{}

/// Once all is over, an order of which the numbers and tasks are the replay leaves no task.
pub fn over_is_finished()
    ensures { (st : Setting) (w : World) (order : List Entry) → IsReplay st w order → IsOver st w →
        (u : ℕ) → u < size st.graph → tasks_of st order u ≡ false }
{}
