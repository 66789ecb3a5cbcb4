//! Laws about the numbers of a cluster. Each is the contract of a function that does nothing.
ghost use Rattle.std.specs.Prelude.{List, [], ◌++◌};
ghost use Rattle.gl_base.specs.declared.entries.Entry.{Entry};
ghost use Rattle.gl_base.specs.declared.scopes.ScopeId.{ScopeId};
ghost use Rattle.cluster_laws.specs.cluster_core.Actions.{Action, MayHappen, MayUpdate, after};
ghost use Rattle.cluster_laws.specs.cluster_core.Copies.{AreCopies};
ghost use Rattle.cluster_laws.specs.cluster_core.Places.{IsExclusive};
ghost use Rattle.cluster_laws.specs.cluster_core.Replays.{IsFresh, IsReplay, replay_of};
ghost use Rattle.cluster_laws.specs.cluster_core.Runs.{IsApartRun, IsStart};
ghost use Rattle.cluster_laws.specs.cluster_core.Settings.{IsSetting, Setting};
ghost use Rattle.cluster_laws.specs.cluster_core.Worlds.{World};

/// As a cluster starts the copies are true, and the numbers and tasks are those before any update.
pub fn starts_have_numbers()
    ensures copies { (st : Setting) (w : World) → IsSetting st → IsStart st w → AreCopies st w }
    ensures replay { (st : Setting) (w : World) → IsSetting st → IsStart st w → IsReplay st w [] }
{}

/// Each action that may happen keeps the copies true, and the numbers and tasks those of the order,
/// which goes on. Of the scopes it is used only that they exclude one another.
pub fn actions_keep_numbers()
    ensures { (st : Setting) (w : World) (action : Action) (order : List Entry) →
        IsSetting st → IsExclusive st w → MayHappen st w action →
        AreCopies st w → IsReplay st w order →
        AreCopies st (after st w action) × (rest : List Entry) ×
        IsReplay st (after st w action) (order ++ rest) }
{}

/// An update that may happen is fresh: its machine lends it the numbers that the replay of the
/// order has there, of the vertex, of its edges and of its neighbours.
pub fn updates_are_fresh()
    ensures { (st : Setting) (w : World) (order : List Entry) (s : ScopeId)
        (may : MayUpdate s (w.part s.home.0) w.left) →
        IsSetting st → IsExclusive st w → AreCopies st w → IsReplay st w order →
        IsFresh st (replay_of st order) (w.part s.home.0) may.vertex }
{}

/// Whatever happens from a start on, where in each world on the way scopes exclude one another: the
/// copies are true, and there is one valid order whose replay on the undivided graph has the
/// numbers of all owners and their tasks, and whose parts are the logs.
pub fn runs_keep_numbers()
    ensures { (st : Setting) (start : World) (actions : List Action) (new : World) →
        IsSetting st → IsStart st start → IsApartRun st start actions new →
        AreCopies st new × (order : List Entry) × IsReplay st new order }
{}
