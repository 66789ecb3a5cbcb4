//! Laws of exclusion. Each is the contract of a function that does nothing, and each is about a
//! cluster as a whole: its machines' parts, its links and its tickets.
ghost use Rattle.std.specs.Prelude.{◌≡◌, ℕ, false, Some, List, ◌∷◌};
ghost use Rattle.std.specs.List.{AllByRecursion};
ghost use Rattle.gl_base.specs.declared.scopes.Mode.{Mode};
ghost use Rattle.gl_base.specs.declared.scopes.Mode.TheVariants.{Writer};
ghost use Rattle.gl_base.specs.declared.scopes.ScopeId.{ScopeId};
ghost use Rattle.cluster_laws.specs.cluster_core.Actions.{Action, MayHappen, after};
ghost use Rattle.cluster_laws.specs.cluster_core.Messages.{Message};
ghost use Rattle.cluster_laws.specs.cluster_core.Places.{ArePlaces, IsExclusive};
ghost use Rattle.cluster_laws.specs.cluster_core.Receiving.{MayReceive};
ghost use Rattle.cluster_laws.specs.cluster_core.Runs.{IsStart, IsActionRun};
ghost use Rattle.cluster_laws.specs.cluster_core.Settings.{Setting, IsSetting, Locking, Chromatic};
ghost use Rattle.cluster_laws.specs.cluster_core.Stages.{Stage, Idle};
ghost use Rattle.cluster_laws.specs.cluster_core.Ways.{IsToldTo};
ghost use Rattle.cluster_laws.specs.cluster_core.Worlds.{World, way};
ghost use Rattle.cluster_laws.specs.cluster_places.Steps.{AreApart, IsInStep};

/// While each scope is in its place no two ready scopes have adjacent vertices, and no scope of a
/// vertex is ready while word of a neighbour's update is on the way to its owner. A lock that is
/// held by a writer has one holder.
pub fn places_exclude()
    ensures exclusive { (st : Setting) (w : World) (stage : ScopeId → Stage) → IsSetting st →
        ArePlaces st w stage → IsExclusive st w }
    ensures writers { (st : Setting) (w : World) (stage : ScopeId → Stage) →
        IsSetting st → ArePlaces st w stage →
        (s t : ScopeId) (x : ℕ) (mode : Mode) →
        (w.part (st.owner x)).holder x s ≡ Some Writer →
        (w.part (st.owner x)).holder x t ≡ Some mode → s ≡ t }
{}

/// Where scopes take locks, each action that may happen leaves each scope in one place.
pub fn actions_keep_places()
    ensures { (st : Setting) (w : World) (action : Action) (stage : ScopeId → Stage) →
        IsSetting st → st.engine ≡ Locking → MayHappen st w action → ArePlaces st w stage →
        (next : ScopeId → Stage) × ArePlaces st (after st w action) next }
{}

/// At the start no scope is in any place; and where the machines that admit scopes are in one step,
/// the cluster is.
pub fn starts_are_placed()
    ensures places { (st : Setting) (w : World) → IsStart st w → ArePlaces st w (λ s. Idle) }
    ensures step { (st : Setting) (colour : ℕ → ℕ) (step : ℕ) (w : World) → IsStart st w →
        ((a : ℕ) → (w.part a).closed ≡ false → (w.part a).colour ≡ step) →
        IsInStep st colour step w }
{}

/// Where scopes take locks, they exclude one another after every list of actions from a start on.
pub fn locks_exclude_whatever_happens()
    ensures { (st : Setting) (start : World) (actions : List Action) (w : World) →
        IsSetting st → st.engine ≡ Locking → IsStart st start →
        IsActionRun st start actions w → IsExclusive st w }
{}

/// While each scope is in its place, and what is on the way concerns the machine at its end, that
/// machine may receive the first message: a request comes where the scope stands nowhere and holds
/// nothing yet, word of locks comes home to a scope in flight, and word of an update to a machine
/// at which the scope holds its locks.
pub fn fronts_may_be_received()
    ensures { (st : Setting) (w : World) (stage : ScopeId →
        Stage) (p q : ℕ) (message : Message) (behind : List Message) →
        IsSetting st → ArePlaces st w stage → AllByRecursion (IsToldTo st p q) (way w p q) →
        w.link p q ≡ message ∷ behind → MayReceive st p q (w.part q) message }
{}

/// In the step of one colour, where neighbours have different colours, scopes exclude one another
/// with no lock at all.
pub fn steps_exclude()
    ensures { (st : Setting) (colour : ℕ → ℕ) (step : ℕ) (w : World) → AreApart st colour →
        IsInStep st colour step w → IsExclusive st w }
{}

/// Where vertices run by colours, each action that may happen leaves the cluster in its step.
pub fn actions_keep_steps()
    ensures { (st : Setting) (colour : ℕ → ℕ) (colours step : ℕ) (w : World) (action : Action) →
        st.engine ≡ Chromatic colour colours → MayHappen st w action → IsInStep st colour step w →
        IsInStep st colour step (after st w action) }
{}
