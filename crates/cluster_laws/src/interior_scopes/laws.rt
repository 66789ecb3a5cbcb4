//! Laws of updates that are made at once. Each is the contract of a function that does nothing.
ghost use Rattle.std.specs.Prelude.{◌≡◌, ℕ, ◌<◌, ◌++◌, ◌∷◌, [], false, List, map};
ghost use Rattle.cluster_laws.specs.cluster_core.Runs.{IsActionRun, IsStart};
ghost use Rattle.graph_core.specs.DataGraph.{size};
ghost use Rattle.cluster_laws.specs.interior_scopes.AtOnce.{Action, Chromatic, Grant, Part, with_part, IsInterior, IsSetting, Locking, MayUpdateAtOnce, Setting, World, actions_at_once, after_at_once};
ghost use Rattle.cluster_laws.specs.interior_scopes.InTurn.{AreGranted};
ghost use Rattle.cluster_laws.specs.interior_scopes.Moves.{AreMoves, MayMove, Move, actions_of, moved};

/// Admission, the grant of each lock in turn and the update are a run: each may happen in its turn,
/// and they lead to the update made at once. Where scopes take no locks, the admission and the
/// update are.
pub fn at_once_is_a_run()
    ensures { (st : Setting) (w : World) (a v : ℕ) → IsSetting st →
        MayUpdateAtOnce st a v (w.part a) w.left →
        IsActionRun st w (actions_at_once st a v (w.part a)) (after_at_once st w a v) }
{}

/// Locks of a machine that are granted one after another are a run of these grants.
pub fn grants_are_a_run()
    ensures { (st : Setting) (w : World) (a : ℕ) (locks : List ℕ) (new : Part) →
        AreGranted st a locks (w.part a) new →
        IsActionRun st w (map (Grant a) locks) (with_part w a new) }
{}

/// Actions and updates at once, mixed in any order, are a run of the actions that they stand for.
/// So each law about runs is one about them.
pub fn moves_are_runs()
    ensures { (st : Setting) (moves : List Move) (actions : List Action) (old new : World) →
        IsSetting st →
        AreMoves st old moves actions new → IsActionRun st old actions new }
{}

/// One move more goes on at the end.
pub fn moves_go_on()
    ensures { (st : Setting) (moves : List Move) (actions : List Action)
        (old between : World) (move : Move) →
        AreMoves st old moves actions between → MayMove st between move →
        AreMoves st old (moves ++ move ∷ []) (actions ++ actions_of st between move)
        (moved st between move) }
{}

/// As a cluster starts, where no vertex is pending, each vertex whose scope lies on one machine may
/// be updated at once.
pub fn starts_may_update_at_once()
    ensures { (st : Setting) (w : World) (v : ℕ) → st.engine ≡ Locking → IsStart st w →
        v < size st.graph → IsInterior st (st.owner v) v →
        (w.part (st.owner v)).pending v ≡ false → 0 < st.pipeline → 0 < w.left →
        MayUpdateAtOnce st (st.owner v) v (w.part (st.owner v)) w.left }
{}

/// So may each such vertex of the step's colour, where scopes take no locks and the cluster starts
/// with its machine in a step.
pub fn steps_may_update_at_once()
    ensures { (st : Setting) (w : World) (v : ℕ) (colour : ℕ → ℕ) (colours : ℕ) →
        st.engine ≡ Chromatic colour colours → IsStart st w → v < size st.graph →
        IsInterior st (st.owner v) v →
        (w.part (st.owner v)).pending v ≡ false → (w.part (st.owner v)).colour ≡ colour v →
        (w.part (st.owner v)).closed ≡ false → 0 < w.left →
        MayUpdateAtOnce st (st.owner v) v (w.part (st.owner v)) w.left }
{}
