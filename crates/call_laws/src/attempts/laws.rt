//! Laws about attempts and calls. Each is the contract of a function that does nothing.
ghost use Rattle.std.specs.List.{AllByRecursion};
ghost use Rattle.std.specs.Prelude.{List, [], filter, length, ℕ, ◌*◌, ◌+◌, ◌++◌, ◌∷◌, ◌≡◌, ◌≤◌};
ghost use Rattle.gl_base.specs.declared.entries.Entry.{Entry};
ghost use Rattle.call_laws.specs.attempts.Accounted.{AreAccounted, AreRestarts, AreValidBetween, IsFollowedByRestart};
ghost use Rattle.call_laws.specs.attempts.Beginnings.{IsBeginning, KeepsWindow, again, held_updates, last_of, nothing, order_after, snapshot_order};
ghost use Rattle.call_laws.specs.attempts.EngineCalls.{AreAttempts, EngineCall, HaveFailed, IsEngineCall, IsOrderInTurn, begins_behind, call_order, fired_of, first_ticket, last_beginning, lost_of, made_of, opening};
ghost use Rattle.cluster_laws.specs.cluster_runs.Attempts.{Attempt, Beginning, IsAttempt, Shared, made_by};
ghost use Rattle.cluster_laws.specs.cluster_core.Cuts.{cut_of};
ghost use Rattle.call_laws.specs.attempts.Entries.{is_restart, is_update, is_update_below};
ghost use Rattle.cluster_laws.specs.cluster_model.ByTicket.{restarts};
ghost use Rattle.call_laws.specs.attempts.Stores.{AreGoodOrders, IsStoreImage, IsWithinWindow, ResumesFrom, last_order, snapshot_orders, attempted_snapshots, snapshots_of};
ghost use Rattle.seq_run.specs.Orders.{IsValidFrom, IsValidOrder, all_tasks, replay, replay_from, tasks_after, tasks_from};

/// What an attempt leads to is a valid order. Its replay and its tasks go on from where the attempt
/// began, and so does the replay of a snapshot's order.
pub fn attempts_go_on()
    ensures valid { (shared : Shared) (b : Beginning) (a : Attempt) →
        IsBeginning shared b → IsAttempt shared b a →
        IsValidOrder shared.graph shared.program (order_after b a) }
    ensures tasks { (shared : Shared) (b : Beginning) (a : Attempt) → IsBeginning shared b →
        tasks_after shared.graph shared.program (order_after b a)
        ≡ tasks_from shared.graph shared.program (replay shared.graph shared.program b.front)
        (all_tasks shared.graph) a.made }
    ensures numbers { (shared : Shared) (b : Beginning) (a : Attempt) →
        replay shared.graph shared.program (order_after b a) ≡ replay_from shared.graph
        shared.program (replay shared.graph shared.program b.front) a.made }
    ensures snapshots { (shared : Shared) (b : Beginning) (a : Attempt) (count : ℕ → ℕ) →
        replay shared.graph shared.program (snapshot_order b a count)
        ≡ replay_from shared.graph shared.program
        (replay shared.graph shared.program b.front) (cut_of count a.made) }
{}

/// A call opens with a beginning, and behind an attempt in which a failure was reached the next one
/// may begin.
pub fn beginnings_go_on()
    ensures first { (shared : Shared) (call : EngineCall) → IsEngineCall shared call →
        IsBeginning shared (opening call) }
    ensures next { (shared : Shared) (b : Beginning) (a : Attempt) → IsBeginning shared b →
        IsAttempt shared b a → 1 ≤ a.struck →
        IsBeginning shared (again b a) }
{}

/// The order of a call is valid and by ticket, and each update is by the machine that owns its
/// vertex.
pub fn orders_are_in_turn()
    ensures { (shared : Shared) (call : EngineCall) → IsEngineCall shared call →
        IsOrderInTurn shared (call_order call) }
{}

/// What the order has from the call's first ticket on and what was lost are together the updates of
/// the call, each ticket once. From each bound to the next they are valid behind what the order has
/// before. The order's updates below the first ticket are those of the base.
pub fn updates_are_accounted()
    ensures together { (shared : Shared) (call : EngineCall) → IsEngineCall shared call →
        AreAccounted shared (first_ticket call) (call_order call) (lost_of call) (made_of call) }
    ensures between { (shared : Shared) (call : EngineCall) → IsEngineCall shared call →
        AreValidBetween shared (first_ticket call) (call_order call) (made_of call) }
    ensures kept { (shared : Shared) (call : EngineCall) → IsEngineCall shared call →
        filter (is_update_below (first_ticket call)) (call_order call) ≡
        filter is_update call.base }
{}

/// Where no more than the window is outside the last snapshot as an attempt fails, no more than
/// that of each machine is lost for each failure that fired.
pub fn losses_are_few()
    ensures { (shared : Shared) (window : ℕ) (call : EngineCall) → IsEngineCall shared call →
        AllByRecursion (KeepsWindow window) call.failed →
        (m : ℕ) → made_by (lost_of call) m ≤ window * length (fired_of shared call) }
{}

/// A restart follows each failure that fired, before its machine's next update.
pub fn failures_are_followed()
    ensures { (shared : Shared) (call : EngineCall) → IsEngineCall shared call →
        AllByRecursion (IsFollowedByRestart (call_order call) (made_of call)) shared.failures }
{}

/// Which restarts an order has, how many failures fired, and that no more attempts failed than
/// that.
pub fn restarts_are_counted()
    ensures restarts { (shared : Shared) (call : EngineCall) → IsEngineCall shared call →
        AreRestarts shared call }
    ensures attempts { (shared : Shared) (call : EngineCall) → IsEngineCall shared call →
        length call.failed ≤ length (fired_of shared call) }
{}

/// Each attempt begins with the order of the last acknowledged snapshot, and the restarts that this
/// lacks.
pub fn attempts_begin_at_snapshots()
    ensures { (shared : Shared) (call : EngineCall) → IsEngineCall shared call →
        ResumesFrom (last_order call.base (attempted_snapshots (opening call) call.failed))
        (last_beginning call).front }
{}

/// A recovery goes back to the order of the last acknowledged snapshot, and adds the restarts that
/// this lacks of those so far and one for each failure that was reached. That is where the next
/// attempt begins.
pub fn recoveries_begin_again()
    ensures { (shared : Shared) (snapshot : List Entry) (b : Beginning) (a : Attempt)
        (missing : List Entry) →
        IsAttempt shared b a → ResumesFrom snapshot b.front →
        filter is_restart b.front ++ restarts a.struck (b.next + length a.made) ≡ filter is_restart
        (last_order snapshot (snapshot_orders b a)) ++ missing →
        last_order snapshot (snapshot_orders b a) ++ missing ≡ (again b a).front }
{}

/// Where no more than the window is outside the last snapshot as the last attempt ends, no more
/// than that of each machine is in the order and not in the call's last snapshot.
pub fn windows_are_kept()
    ensures { (shared : Shared) (window : ℕ) (call : EngineCall) → IsEngineCall shared call →
        KeepsWindow window call.last →
        IsWithinWindow window (last_order call.base (snapshots_of call)) (call_order call) }
{}

/// From a good store on each call leaves a good store, whichever of its snapshots are in it, from
/// the first one on, also where one more was recorded and not acknowledged. Its last order may be
/// the base of the next call.
pub fn stores_stay_good()
    ensures call { (shared : Shared) (store : List (List Entry)) (call : EngineCall) →
        AreGoodOrders shared store → call.base ≡ last_order [] store → IsEngineCall shared call →
        AreGoodOrders shared (store ++ snapshots_of call) }
    ensures pending { (shared : Shared) (store : List (List Entry)) (call : EngineCall) (later : ℕ →
        ℕ) →
        AreGoodOrders shared store → call.base ≡ last_order [] store → IsEngineCall shared call →
        ((v : ℕ) → last_of nothing call.last.kept v ≤ later v) →
        IsValidFrom shared.graph shared.program
        (replay shared.graph shared.program (last_beginning call).front) (all_tasks shared.graph)
        (cut_of later call.last.made) →
        AreGoodOrders shared
        (store ++ (snapshots_of call ++ snapshot_order (last_beginning call)
        call.last later ∷ [])) }
    ensures images { (shared : Shared) (store added image : List (List Entry)) →
        AreGoodOrders shared (store ++ added) → IsStoreImage store added image →
        AreGoodOrders shared image }
    ensures base { (shared : Shared) (store : List (List Entry)) → AreGoodOrders shared store →
        IsOrderInTurn shared (last_order [] store) }
{}

/// Where the last attempt acknowledged a snapshot that has all its updates, the last snapshot's
/// order is the call's.
pub fn full_snapshots_are_orders()
    ensures { (shared : Shared) (call : EngineCall) → IsEngineCall shared call →
        1 ≤ length call.last.kept → held_updates call.last ≡ call.last.made →
        last_order call.base (snapshots_of call) ≡ call_order call }
{}

/// A loop makes attempts one by one: one that failed comes behind those that failed, and a last one
/// behind them all.
pub fn attempts_follow_one_another()
    ensures failed { (shared : Shared) (b : Beginning) (failed : List Attempt) (a : Attempt) →
        HaveFailed shared b failed → IsAttempt shared (begins_behind b failed) a → 1 ≤ a.struck →
        HaveFailed shared b (failed ++ a ∷ []) }
    ensures next { (b : Beginning) (failed : List Attempt) (a : Attempt) →
        begins_behind b (failed ++ a ∷ []) ≡ again (begins_behind b failed) a }
    ensures last { (shared : Shared) (b : Beginning) (failed : List Attempt) (last : Attempt) →
        HaveFailed shared b failed → IsAttempt shared (begins_behind b failed) last →
        AreAttempts shared b failed last }
{}
