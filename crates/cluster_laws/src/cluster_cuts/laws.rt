//! Laws about the marks and cuts of a cluster that takes snapshots. Each is the contract of a
//! function that does nothing.
ghost use Rattle.std.specs.Prelude.{◌≡◌, ℕ, ◌<◌, ◌≤◌, List, [], ◌++◌};
ghost use Rattle.gl_base.specs.declared.entries.Entry.{Entry};
ghost use Rattle.graph_core.specs.DataGraph.{size};
ghost use Rattle.seq_run.specs.Orders.{all_tasks, IsValidFrom};
ghost use Rattle.seq_run.specs.States.{GraphState};
ghost use Rattle.cluster_laws.specs.cluster_core.Actions.{Action, MayHappen, MayRecord, after};
ghost use Rattle.cluster_laws.specs.cluster_core.Cuts.{Begins, IsCut, cut_of, updates_at, updates_of};
ghost use Rattle.cluster_laws.specs.cluster_core.Places.{IsExclusive};
ghost use Rattle.cluster_laws.specs.cluster_core.Recovering.{going_on, recovered};
ghost use Rattle.cluster_laws.specs.cluster_core.Runs.{IsApartRun, IsStart};
ghost use Rattle.cluster_laws.specs.cluster_core.Settings.{IsSetting, Setting};
ghost use Rattle.cluster_laws.specs.cluster_core.Snapshots.{IsConsistent, IsUnmarked};
ghost use Rattle.cluster_laws.specs.cluster_core.Worlds.{World};
ghost use Rattle.cluster_laws.specs.cluster_cuts.Goings.{GoesOn, HoldCut, IsOneStep};

/// A cluster starts consistent, and no update is in its order yet.
pub fn starts_are_consistent()
    ensures { (st : Setting) (w : World) → IsSetting st → IsStart st w → IsUnmarked st w →
        (kept : IsConsistent st w) × (kept.order ≡ []) }
{}

/// After a recovery the cluster starts again, from the numbers of the snapshot that it goes back
/// to.
pub fn recoveries_are_starts()
    ensures start { (st : Setting) (numbers : GraphState) (k : ℕ) (w : World) →
        IsStart (going_on st numbers k) (recovered st numbers k w) }
    ensures unmarked { (st : Setting) (numbers : GraphState) (k : ℕ) (w : World) →
        IsUnmarked (going_on st numbers k) (recovered st numbers k w) }
{}

/// Each action that may happen leaves copies, numbers, marks and the cut of the newest snapshot
/// consistent. Order and cut stay, or one update is added to the order, and to the cut where its
/// vertex isn't marked, or a snapshot begins, whose cut is the whole order. Of the scopes it is
/// used only that they exclude one another.
pub fn actions_keep_consistence()
    ensures { (st : Setting) (w : World) (kept : IsConsistent st w) (action : Action) →
        IsSetting st → IsExclusive st w → MayHappen st w action →
        IsOneStep st w kept (after st w action) }
{}

/// Where a record may be made, the sections that have come hold the numbers of a cut of the order,
/// of each vertex and each edge, and this cut is a valid order.
pub fn records_are_cuts()
    ensures held { (st : Setting) (w : World) (kept : IsConsistent st w) →
        IsSetting st → MayRecord st w →
        HoldCut st w kept.count kept.order }
    ensures valid { (st : Setting) (w : World) (kept : IsConsistent st w) →
        IsSetting st → MayRecord st w →
        IsValidFrom st.graph st.program st.start (all_tasks st.graph)
        (cut_of kept.count kept.order) }
    ensures cut { (st : Setting) (w : World) (kept : IsConsistent st w) →
        IsSetting st → MayRecord st w →
        IsCut st w kept.order kept.count }
{}

/// Whatever happens, while scopes exclude one another: the order goes on by updates of the owners,
/// with the tickets from the next one on, and no vertex has fewer updates in the newest cut than it
/// had.
pub fn runs_go_on()
    ensures { (st : Setting) (old : World) (kept : IsConsistent st old)
        (actions : List Action) (new : World) →
        IsSetting st → IsApartRun st old actions new → GoesOn st old kept new }
{}

/// A later cut of an order that went on begins, at each vertex, with the updates of the earlier
/// cut.
pub fn later_cuts_have_more()
    ensures { (order more : List Entry) (one other : ℕ → ℕ) (v : ℕ) →
        one v ≤ updates_of v order → one v ≤ other v →
        Begins (updates_at v (cut_of one order)) (updates_at v (cut_of other (order ++ more))) }
{}

/// Whatever happens once a snapshot was begun: the newest cut begins, at each vertex, with the
/// updates of the cut before.
pub fn cuts_go_on()
    ensures { (st : Setting) (old : World) (kept : IsConsistent st old) (new : World)
        (gone : GoesOn st old kept new) →
        st.base < old.begun → (v : ℕ) → v < size st.graph →
        Begins (updates_at v (cut_of kept.count kept.order))
        (updates_at v (cut_of gone.next.count gone.next.order)) }
{}
