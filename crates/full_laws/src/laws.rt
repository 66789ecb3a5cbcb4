//! The laws. Each is the contract of a function that does nothing.
ghost use Rattle.std.specs.Prelude.{◌≡◌, ℕ, ◌<◌, ◌↔◌, true, Option, None, Some, List, [], ◌∷◌};
ghost use Rattle.gl_base.specs.declared.entries.Entry.{Entry};
ghost use Rattle.gl_base.specs.declared.scopes.ScopeId.{ScopeId};
ghost use Rattle.graph_core.specs.DataGraph.{size};
ghost use Rattle.cluster_laws.specs.cluster_core.Settings.{Setting, IsSetting, is_in_scope};
ghost use Rattle.cluster_laws.specs.merged_logs.Merges.{IsMerge};
ghost use Rattle.full_scope.specs.FullOrders.{IsFullyValid, full_replay, full_tasks_after};
ghost use Rattle.full_scope.specs.FullStates.{AgreeAround};
ghost use Rattle.full_scope.specs.FullUpdates.{FullUpdate};
ghost use Rattle.full_laws.specs.FullActions.{FullAction, MayHappenFull, Updates};
ghost use Rattle.full_laws.specs.FullEffects.{lent_full, scope_of};
ghost use Rattle.full_laws.specs.FullMessages.{FullMessage, Gather};
ghost use Rattle.full_laws.specs.FullParts.{FullStand};
ghost use Rattle.full_laws.specs.FullPlaces.{times_among, IsArrivingAt, IsStandingAt};
ghost use Rattle.full_laws.specs.FullReplays.{IsFullCoherent, all_logs};
ghost use Rattle.full_laws.specs.FullRuns.{IsFullStart, IsFullRun, IsAllGiven};
ghost use Rattle.full_laws.specs.FullWorlds.{FullWorld};
ghost use Rattle.full_laws.specs.Items.{Item, IsItem, keeps, number_in};

/// A cluster starts coherent, with no update made.
pub fn full_clusters_start()
    ensures { (st : Setting) (p : FullUpdate) (w : FullWorld) → IsSetting st → IsFullStart st p w →
        (kept : IsFullCoherent st p w) × (kept.order ≡ []) }
{}

/// Whatever happens, it stays coherent: a held lock has one holder, and its machine owns its vertex;
/// each scope is in one place; what was gathered is what the owners have; what is given has a
/// number of each vertex whose lock is let go with it; and the numbers and tasks are those of one
/// valid order, whose parts are the logs.
pub fn full_clusters_stay_coherent()
    ensures { (st : Setting) (p : FullUpdate) (start : FullWorld) (actions : List FullAction)
        (w : FullWorld) → IsSetting st → IsFullStart st p start → IsFullRun st p start actions w →
        IsFullCoherent st p w }
{}

/// The logs of all machines, merged by ticket, are that order; so they have one merge, and it is
/// valid.
pub fn full_logs_merge_to_their_order()
    ensures { (st : Setting) (p : FullUpdate) (w : FullWorld) (kept : IsFullCoherent st p w) →
        IsSetting st → (merged : List Entry) → IsMerge (all_logs st w) merged →
        (merged ≡ kept.order) × IsFullyValid st.graph p merged }
{}

/// Whoever waits for a lock stands before it: each in a queue at the owner of its vertex does. And
/// where a scope stands, its lock is one of that machine, and the machines that own others of its
/// vertices and come behind that one are still to come.
pub fn waiting_scopes_stand()
    ensures queued { (st : Setting) (p : FullUpdate) (w : FullWorld) → IsFullCoherent st p w →
        (s : ScopeId) (x : ℕ) → 0 < times_among s ((w.part (st.owner x)).queue x) →
        (stand : FullStand) × ((w.part (st.owner x)).stand s ≡ Some stand) × (stand.lock ≡ x) }
    ensures standing { (st : Setting) (p : FullUpdate) (w : FullWorld) → IsFullCoherent st p w →
        (s : ScopeId) (a : ℕ) (stand : FullStand) → (w.part a).stand s ≡ Some stand →
        IsStandingAt st s a stand }
{}

/// A scope that comes to a machine for its locks there stands nowhere at that machine yet. Its
/// centre is a vertex of its home, and the machines of its scope behind this one are still to come.
pub fn arriving_scopes_stand_nowhere()
    ensures { (st : Setting) (p : FullUpdate) (w : FullWorld) → IsFullCoherent st p w →
        (from to : ℕ) (s : ScopeId) (v : ℕ) (rest : List ℕ) (seen : ℕ → Option ℕ)
        (behind : List FullMessage) → w.link from to ≡ Gather s v rest seen ∷ behind →
        IsArrivingAt st w s to v rest }
{}

/// The scope that a machine admits next is not in flight, and stands nowhere.
pub fn next_scopes_are_new()
    ensures flight { (st : Setting) (p : FullUpdate) (w : FullWorld) → IsFullCoherent st p w →
        (a : ℕ) → (w.part a).flight (scope_of a (w.part a).serial) ≡ None }
    ensures stand { (st : Setting) (p : FullUpdate) (w : FullWorld) → IsFullCoherent st p w →
        (a b : ℕ) → (w.part b).stand (scope_of a (w.part a).serial) ≡ None }
{}

/// No vertex is in the scopes of two updates that are ready.
pub fn ready_scopes_are_apart()
    ensures { (st : Setting) (p : FullUpdate) (w : FullWorld) → IsFullCoherent st p w →
        (s t : ScopeId) (one : MayHappenFull st w (Updates s))
        (other : MayHappenFull st w (Updates t))
        (x : ℕ) → is_in_scope st one.vertex x ≡ true →
        is_in_scope st other.vertex x ≡ true → s ≡ t }
{}

/// An update that may be made is lent the numbers of the order so far: of its vertex, of the
/// neighbours and of the edges to them.
pub fn full_updates_are_fresh()
    ensures { (st : Setting) (p : FullUpdate) (start : FullWorld) (actions : List FullAction)
        (w : FullWorld) → IsSetting st → IsFullStart st p start → IsFullRun st p start actions w →
        (kept : IsFullCoherent st p w) × ((s : ScopeId) (may : MayHappenFull st w (Updates s)) →
        let lent = lent_full may.seen (w.part s.home.0) in
        AgreeAround st.graph lent (full_replay st.graph p kept.order) may.vertex) }
{}

/// Once all that was given has come, each number is that of the order wherever it is kept, and the
/// tasks are those of the order.
pub fn given_clusters_have_their_replay()
    ensures numbers { (st : Setting) (p : FullUpdate) (w : FullWorld)
        (kept : IsFullCoherent st p w) → IsAllGiven w →
        (i : Item) (a : ℕ) → IsItem st.graph i → keeps st a i ≡ true →
        (w.part a).number i ≡ number_in (full_replay st.graph p kept.order) i }
    ensures tasks { (st : Setting) (p : FullUpdate) (w : FullWorld)
        (kept : IsFullCoherent st p w) → IsAllGiven w → (u : ℕ) → u < size st.graph →
        (full_tasks_after st.graph p kept.order u ≡ true) ↔ ((w.part (st.owner u)).task u ≡ true) }
{}
