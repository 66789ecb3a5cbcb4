//! Laws of the cluster. Each is the contract of a function that does nothing.
ghost use Rattle.std.specs.Prelude.{◌≡◌, ℕ, ◌+◌, ◌<◌, ◌≤◌, length, ◌↔◌, true, None, List, [], ◌++◌, ◌∷◌};
ghost use Rattle.std.specs.List.{AllByRecursion};
ghost use Rattle.gl_base.specs.declared.entries.Entry.{Entry};
ghost use Rattle.gl_base.specs.declared.scopes.Counted.{Counted};
ghost use Rattle.gl_base.specs.declared.scopes.ScopeId.{ScopeId};
ghost use Rattle.graph_core.specs.DataGraph.{size};
ghost use Rattle.seq_run.specs.Orders.{all_tasks, IsValidFrom};
ghost use Rattle.cluster_laws.specs.cluster_core.Actions.{MayGrant, MayUpdate};
ghost use Rattle.cluster_laws.specs.cluster_core.Cuts.{Begins, cut_of, updates_at};
ghost use Rattle.cluster_laws.specs.cluster_core.Messages.{Message};
ghost use Rattle.cluster_laws.specs.cluster_core.Places.{IsExclusive};
ghost use Rattle.cluster_laws.specs.cluster_core.Receiving.{MayReceive};
ghost use Rattle.cluster_laws.specs.cluster_core.Recovering.{going_on};
ghost use Rattle.cluster_laws.specs.cluster_core.Replays.{IsFresh, IsTask, entries_of, replay_of, tasks_of};
ghost use Rattle.cluster_laws.specs.cluster_core.Settings.{Chromatic, IsSetting, Locking, Setting};
ghost use Rattle.cluster_laws.specs.cluster_core.Snapshots.{IsConsistent};
ghost use Rattle.cluster_laws.specs.cluster_core.Worlds.{way};
ghost use Rattle.cluster_laws.specs.cluster_cuts.Goings.{AreUpdatesFrom, HoldCut};
ghost use Rattle.cluster_laws.specs.cluster_model.Calls.{Call, Count, Report, Step, Wave};
ghost use Rattle.cluster_laws.specs.cluster_model.Clusters.{BaseView, Cluster};
ghost use Rattle.cluster_laws.specs.cluster_model.Counting.{MayBeCounted};
ghost use Rattle.cluster_laws.specs.cluster_model.Events.{Event, IsTrace, MayDo, after_event, recovers, setting_after};
ghost use Rattle.cluster_laws.specs.cluster_model.Leading.{RecordIsDue};
ghost use Rattle.cluster_laws.specs.cluster_model.Machines.{outside};
ghost use Rattle.cluster_laws.specs.cluster_model.Rounds.{StepIsDue};
ghost use Rattle.cluster_laws.specs.cluster_model.Totals.{total};
ghost use Rattle.whole_laws.specs.cluster_whole.Logged.{IsLogged, Logged, entries_to};
ghost use Rattle.whole_laws.specs.cluster_whole.Steps.{ComesBetween, messages_between};
ghost use Rattle.whole_laws.specs.cluster_whole.Views.{IsMove, world_of};
ghost use Rattle.whole_laws.specs.cluster_whole.Windows.{AreWithin};
ghost use Rattle.whole_laws.specs.cluster_whole.Whole.{AreColoured, IsNoRecovery, IsWhole, setting_behind};

/// Each event but a recovery is an action of the core of the cluster, or none, and behind it one
/// machine at most is told of a step or admits nothing more in it.
pub fn events_are_moves()
    ensures { (st : Setting) (c : Cluster) (event : Event) → MayDo st c event → IsNoRecovery event →
        IsMove st (world_of c) (world_of (after_event st c event)) }
{}

/// A cluster begins whole, at the start and after each recovery, whatever was before and whatever
/// it goes back to.
pub fn clusters_begin_whole()
    ensures { (st : Setting) (base : BaseView) (c : Cluster) → IsSetting st →
        AreColoured st st.engine →
        IsWhole (going_on st base.numbers base.number) (recovers st base c) }
{}

/// Each event that may happen leaves a whole cluster whole, with locks and with colours.
pub fn events_keep_clusters_whole()
    ensures { (st : Setting) (c : Cluster) (event : Event) → IsSetting st →
        MayDo st c event → IsWhole st c →
        IsWhole (setting_after st event) (after_event st c event) }
{}

/// So does every list of events, with failures and recoveries among them.
pub fn traces_stay_whole()
    ensures { (st : Setting) (events : List Event) (old new : Cluster) →
        IsSetting st → IsWhole st old →
        IsTrace st old events new → IsWhole (setting_behind st events) new }
{}

/// Where a cluster is whole, no two ready scopes are near each other, and while word of an update
/// of a neighbour is on the way to a vertex's owner, no scope of the vertex is ready.
pub fn whole_clusters_exclude()
    ensures { (st : Setting) (c : Cluster) → IsSetting st → IsWhole st c →
        IsExclusive st (world_of c) }
{}

/// The logs of a whole cluster are the parts of one valid order. Its replay on the undivided graph
/// gives the numbers that the owners of the vertices have, and its tasks are theirs and those that
/// are on the way. No machine's window is passed.
pub fn whole_clusters_are_serial()
    ensures order { (st : Setting) (c : Cluster) → IsWhole st c →
        (order : List Entry)
        × IsValidFrom st.graph st.program st.start (all_tasks st.graph) order
        × ((a : ℕ) → (c.machine a).part.log ≡ entries_of a order)
        × ((v : ℕ) → v < size st.graph →
        ((c.machine (st.owner v)).part.datum v).value ≡ (replay_of st order).vertex v)
        × ((u : ℕ) → u < size st.graph → (tasks_of st order u ≡ true) ↔ IsTask st (world_of c) u) }
    ensures windows { (st : Setting) (c : Cluster) (a : ℕ) → IsWhole st c → st.stored ≡ true →
        outside (c.machine a) + (c.machine a).plans ≤ st.window }
{}

/// With colours, where the next step is due, no message is on its way between machines, each
/// machine has closed the newest step, and no scope is in flight.
pub fn due_steps_are_over()
    ensures { (st : Setting) (colour : ℕ → ℕ) (colours : ℕ) (c : Cluster) → IsWhole st c →
        st.engine ≡ Chromatic colour colours →
        StepIsDue st.engine c.coordinator.rounds →
        ((p q : ℕ) → way (world_of c) p q ≡ [])
        × ((a : ℕ) → (c.machine a).part.closed ≡ true)
        × ((s : ScopeId) → (c.machine s.home.0).part.flight s ≡ None) }
{}

/// With colours no lock is ever granted: nobody waits for one.
pub fn grants_never_happen()
    ensures { (st : Setting) (colour : ℕ → ℕ) (colours a x : ℕ) (c : Cluster) → IsWhole st c →
        st.engine ≡ Chromatic colour colours →
        MayGrant st a x (c.machine a).part → ⊥ }
{}

/// With colours, what machines sent each other was received or is on its way.
pub fn counts_are_balanced()
    ensures { (st : Setting) (colour : ℕ → ℕ) (colours : ℕ) (c : Cluster) → IsWhole st c →
        st.engine ≡ Chromatic colour colours →
        total st.machines (λ a. (c.machine a).sent) ≡ total st.machines (λ a.
        (c.machine a).received) + messages_between st (world_of c) }
{}

/// Each event keeps what a machine counts by itself: its scopes in flight, those of them that were
/// admitted for an update, and that its updates outside the last snapshot that it knows to be
/// acknowledged, with these, are no more than its window. Nothing else of the cluster is used, and
/// no engine.
pub fn events_keep_windows()
    ensures kept { (st : Setting) (c : Cluster) (event : Event) → MayDo st c event →
        AreWithin st c → AreWithin st (after_event st c event) }
    ensures begins { (st : Setting) (base : BaseView) (c : Cluster) →
        AreWithin st (recovers st base c) }
{}

/// Where a record is due, the sections that have come hold the numbers of a cut of the order. The
/// cut is valid, and it is the updates that are logged for this snapshot or for one before.
pub fn records_hold_cuts()
    ensures held { (st : Setting) (c : Cluster) (whole : IsWhole st c) → IsSetting st →
        RecordIsDue st c.coordinator →
        HoldCut st (world_of c) whole.consistent.count whole.consistent.order }
    ensures valid { (st : Setting) (c : Cluster) (whole : IsWhole st c) → IsSetting st →
        RecordIsDue st c.coordinator →
        IsValidFrom st.graph st.program st.start (all_tasks st.graph)
        (cut_of whole.consistent.count whole.consistent.order) }
    ensures updates { (st : Setting) (c : Cluster) (whole : IsWhole st c) (logged : List Logged) →
        RecordIsDue st c.coordinator →
        IsLogged st (world_of c) whole.consistent logged →
        cut_of whole.consistent.count whole.consistent.order ≡ entries_to
        c.coordinator.begun logged }
{}

/// Within an attempt, whatever happens once a snapshot was begun: the order goes on, each new
/// update has the next ticket, and a later cut begins, at each vertex, with the updates of an
/// earlier one.
pub fn cuts_go_on()
    ensures { (st : Setting) (events : List Event) (old new : Cluster) (whole : IsWhole st old) →
        IsSetting st → AllByRecursion IsNoRecovery events → IsTrace st old events new →
        st.base < old.coordinator.begun →
        (next : IsConsistent st (world_of new)) × (rest : List Entry)
        × (next.order ≡ whole.consistent.order ++ rest)
        × AreUpdatesFrom old.next rest
        × (new.next ≡ old.next + length rest)
        × ((v : ℕ) → v < size st.graph →
        Begins (updates_at v (cut_of whole.consistent.count whole.consistent.order))
        (updates_at v (cut_of next.count next.order))) }
{}

/// Each event but a recovery goes on with the updates that are logged for snapshots: of each update
/// the number of the first snapshot that has it, the one behind the mark that its vertex had then.
/// The order is these updates, and the newest snapshot's cut is those with its number or a lower
/// one. What is logged later is of no snapshot that was acknowledged, so its updates stay those
/// that they are. The next cluster is whole, so this chains.
pub fn events_log_for_snapshots()
    ensures begins { (st : Setting) (base : BaseView) (c : Cluster) → IsSetting st →
        AreColoured st st.engine →
        (whole : IsWhole (going_on st base.numbers base.number) (recovers st base c))
        × IsLogged (going_on st base.numbers base.number)
        (world_of (recovers st base c)) whole.consistent [] }
    ensures goes_on { (st : Setting) (c : Cluster) (whole : IsWhole st c) (event : Event)
        (logged : List Logged) →
        IsSetting st → MayDo st c event → IsNoRecovery event →
        IsLogged st (world_of c) whole.consistent logged →
        (next : IsWhole st (after_event st c event)) × (more : List Logged)
        × AllByRecursion (λ l. c.coordinator.acknowledged < l.number) more
        × IsLogged st (world_of (after_event st c event)) next.consistent (logged ++ more) }
{}

/// An update that may happen in a whole cluster is fresh: its machine lends it what the replay of
/// the order has there, of its vertex, its edges and its neighbours.
pub fn whole_updates_are_fresh()
    ensures { (st : Setting) (c : Cluster) (whole : IsWhole st c) (s : ScopeId)
        (may : MayUpdate s (c.machine s.home.0).part c.left) →
        IsSetting st → IsFresh st (replay_of st whole.consistent.order)
        (c.machine s.home.0).part may.vertex }
{}

/// With locks the first message on each link between machines meets what its receiver may rely on.
/// With colours a step that comes is the newest and finds no scope in flight, a wave finds none
/// held, counts are of the newest wave and missing, and machines tell each other nothing but of
/// updates of vertices in whose scopes both take part.
pub fn fronts_may_be_received()
    ensures messages { (st : Setting) (c : Cluster) (p q : ℕ) (message : Message)
        (behind : List Message) →
        IsSetting st → IsWhole st c → st.engine ≡ Locking → c.link p q ≡ message ∷ behind →
        MayReceive st p q (c.machine q).part message }
    ensures step { (st : Setting) (c : Cluster) (colour : ℕ →
        ℕ) (colours a newest : ℕ) (behind : List Call) →
        IsWhole st c → st.engine ≡ Chromatic colour colours → a < st.machines →
        c.calls a ≡ Step newest ∷ behind →
        (newest ≡ c.coordinator.rounds.colour) ×
        ((s : ScopeId) → s.home.0 ≡ a → (c.machine a).part.flight s ≡ None) }
    ensures wave { (st : Setting) (c : Cluster) (colour : ℕ →
        ℕ) (colours a k : ℕ) (behind : List Call) →
        IsWhole st c → st.engine ≡ Chromatic colour colours → a < st.machines →
        c.calls a ≡ Wave k ∷ behind → (c.machine a).held ≡ None }
    ensures counts { (st : Setting) (c : Cluster) (colour : ℕ →
        ℕ) (colours a k : ℕ) (counts : Counted) (behind : List Report) →
        IsWhole st c → st.engine ≡ Chromatic colour colours → a < st.machines →
        c.reports a ≡ Count k counts ∷ behind →
        MayBeCounted c.coordinator.rounds.counting a k }
    ensures words { (st : Setting) (c : Cluster) (colour : ℕ →
        ℕ) (colours p q : ℕ) (message : Message) (behind : List Message) →
        IsWhole st c → st.engine ≡ Chromatic colour colours → c.link p q ≡ message ∷ behind →
        ComesBetween st c.coordinator.rounds.steps p q message }
{}
