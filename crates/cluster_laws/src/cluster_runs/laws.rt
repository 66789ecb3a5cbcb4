//! Laws about what happens in a cluster from a start on. Each is the contract of a function that
//! does nothing.
ghost use Rattle.std.specs.Prelude.{◌≡◌, ℕ, ◌+◌, ◌<◌, length, ◌↔◌, true, List, [], ◌∷◌};
ghost use Rattle.std.specs.List.{AllByRecursion};
ghost use Rattle.gl_base.specs.declared.entries.Entry.{Entry};
ghost use Rattle.gl_base.specs.declared.jobs.FailureAt.{FailureAt};
ghost use Rattle.gl_base.specs.declared.scopes.ScopeId.{ScopeId};
ghost use Rattle.graph_core.specs.DataGraph.{size};
ghost use Rattle.seq_run.specs.Orders.{all_tasks, replay, IsValidFrom};
ghost use Rattle.cluster_laws.specs.cluster_core.Actions.{Action, MayHappen, MayRecord, MayUpdate, after};
ghost use Rattle.cluster_laws.specs.cluster_core.Coherent.{IsCoherent};
ghost use Rattle.cluster_laws.specs.cluster_core.Cuts.{cut_of};
ghost use Rattle.cluster_laws.specs.cluster_core.Messages.{Message};
ghost use Rattle.cluster_laws.specs.cluster_core.Places.{ArePlaces};
ghost use Rattle.cluster_laws.specs.cluster_core.Receiving.{MayReceive};
ghost use Rattle.cluster_laws.specs.cluster_core.Replays.{IsFresh, IsTask, entries_of, replay_of, tasks_of};
ghost use Rattle.cluster_laws.specs.cluster_core.Runs.{IsApartRun, IsActionRun, IsStart};
ghost use Rattle.cluster_laws.specs.cluster_core.Settings.{Chromatic, IsSetting, Locking, Setting};
ghost use Rattle.cluster_laws.specs.cluster_core.Snapshots.{IsUnmarked};
ghost use Rattle.cluster_laws.specs.cluster_core.Stages.{Stage};
ghost use Rattle.cluster_laws.specs.cluster_core.Worlds.{World};
ghost use Rattle.cluster_laws.specs.cluster_places.Steps.{AreApart, IsInStep};
ghost use Rattle.cluster_laws.specs.cluster_cuts.Goings.{HoldCut};
ghost use Rattle.cluster_laws.specs.cluster_runs.Attempts.{Attempt, Beginning, IsAttempt, StopsAtFailure};
ghost use Rattle.cluster_laws.specs.cluster_runs.Recorded.{AreRecorded, shared_of};

/// A cluster starts coherent.
pub fn starts_are_coherent()
    ensures { (st : Setting) (w : World) → IsSetting st → IsStart st w → IsCoherent st w }
{}

/// Where scopes take locks each action that may happen keeps a coherent cluster coherent.
pub fn actions_keep_coherence()
    ensures { (st : Setting) (w : World) (action : Action) →
        IsSetting st → st.engine ≡ Locking → IsCoherent st w → MayHappen st w action →
        IsCoherent st (after st w action) }
{}

/// An update that may happen in a coherent cluster is fresh.
pub fn coherent_updates_are_fresh()
    ensures { (st : Setting) (w : World) (coherent : IsCoherent st w) (s : ScopeId)
        (may : MayUpdate s (w.part s.home.0) w.left) →
        IsSetting st → st.engine ≡ Locking →
        IsFresh st (replay_of st coherent.order) (w.part s.home.0) may.vertex }
{}

/// The first message on each link of a coherent cluster meets what its receiver may rely on.
pub fn coherent_clusters_receive()
    ensures { (st : Setting) (w : World) (p q : ℕ) (message : Message) (behind : List Message) →
        IsSetting st → st.engine ≡ Locking → IsCoherent st w → w.link p q ≡ message ∷ behind →
        MayReceive st p q (w.part q) message }
{}

/// With locks, and within one step of colours, scopes exclude one another in each world that a run
/// comes through.
pub fn runs_are_apart()
    ensures locks { (st : Setting) (old : World) (actions : List Action) (new : World)
        (stage : ScopeId → Stage) →
        IsSetting st → st.engine ≡ Locking → ArePlaces st old stage →
        IsActionRun st old actions new → IsApartRun st old actions new }
    ensures step { (st : Setting) (colour : ℕ →
        ℕ) (colours step : ℕ) (old : World) (actions : List Action) (new : World) →
        st.engine ≡ Chromatic colour colours → AreApart st colour → IsInStep st colour step old →
        IsActionRun st old actions new →
        IsApartRun st old actions new }
{}

/// Whatever happens with locks from a start on is serial: there is one valid order whose parts are
/// the machines' logs. Its replay on the undivided graph gives the numbers that the owners of the
/// vertices have, and its tasks are theirs and those that are on the way.
pub fn runs_are_serial()
    ensures { (st : Setting) (start : World) (actions : List Action) (w : World) →
        IsSetting st → st.engine ≡ Locking → IsStart st start → IsActionRun st start actions w →
        (order : List Entry)
        × IsValidFrom st.graph st.program st.start (all_tasks st.graph) order
        × ((a : ℕ) → (w.part a).log ≡ entries_of a order)
        × ((v : ℕ) → v < size st.graph →
        ((w.part (st.owner v)).datum v).value ≡ (replay_of st order).vertex v)
        × ((u : ℕ) → u < size st.graph → (tasks_of st order u ≡ true) ↔ IsTask st w u) }
{}

/// Whatever happens with locks from a start on, where a record may be made the sections that have
/// come hold the numbers of a cut of an order whose parts are the logs, and the cut is a valid
/// order.
pub fn snapshots_are_consistent()
    ensures { (st : Setting) (start : World) (actions : List Action) (w : World) →
        IsSetting st → st.engine ≡ Locking → IsStart st start → IsUnmarked st start →
        IsActionRun st start actions w → MayRecord st w →
        (order : List Entry) × (count : ℕ → ℕ)
        × ((a : ℕ) → (w.part a).log ≡ entries_of a order)
        × IsValidFrom st.graph st.program st.start (all_tasks st.graph) order
        × IsValidFrom st.graph st.program st.start (all_tasks st.graph) (cut_of count order)
        × HoldCut st w count order }
{}

/// Whatever happens in a cluster from a start on, while scopes exclude one another, is an attempt
/// of a call: its logs are the parts of one list of updates with the tickets from the next one on,
/// its numbers are that list's, and each record holds the numbers of a cut that has what the cut
/// before has. It is left to say that a machine stops where it reaches the count of a failure.
pub fn runs_are_attempts()
    ensures { (st : Setting) (failures : List FailureAt) (b : Beginning) (start : World)
        (actions : List Action) (new : World) →
        IsSetting st → IsStart st start → IsUnmarked st start → IsApartRun st start actions new →
        replay st.graph st.program b.front ≡ st.start → b.next ≡ start.next →
        (a : Attempt)
        × ((m : ℕ) → (new.part m).log ≡ entries_of m a.made)
        × ((v : ℕ) → v < size st.graph →
        ((new.part (st.owner v)).datum v).value ≡ (replay_of st a.made).vertex v)
        × (new.next ≡ b.next + length a.made)
        × AreRecorded st start actions a.kept a.made
        × (AllByRecursion (StopsAtFailure b a.made) failures →
        IsAttempt (shared_of st failures) b a) }
{}
