//! Laws of stores in the course of a call. Each is the contract of a function that does nothing.
ghost use Rattle.std.specs.Prelude.{Bool, List, [], filter, length, true, ℕ, ◌++◌, ◌<◌, ◌∷◌, ◌≡◌};
ghost use Rattle.gl_base.specs.declared.entries.Entry.{Entry};
ghost use Rattle.gl_base.specs.declared.jobs.FailureAt.{FailureAt};
ghost use Rattle.gl_base.specs.declared.snapshots.Record.{Record};
ghost use Rattle.call_laws.specs.attempts.Entries.{is_restart};
ghost use Rattle.cluster_laws.specs.cluster_core.Recovering.{going_on};
ghost use Rattle.cluster_laws.specs.cluster_core.Settings.{Setting};
ghost use Rattle.cluster_laws.specs.cluster_model.Clusters.{BaseView, Cluster};
ghost use Rattle.cluster_laws.specs.cluster_model.ByTicket.{restarts};
ghost use Rattle.cluster_laws.specs.cluster_model.Events.{Event, GoesBackTo, failures_in, recovers};
ghost use Rattle.cluster_laws.specs.cluster_model.Leading.{RecordIsDue};
ghost use Rattle.whole_laws.specs.cluster_records.Recorded.{HaveSameNumbers, snapshot_due};
ghost use Rattle.cluster_laws.specs.cluster_runs.Recorded.{shared_of};
ghost use Rattle.whole_laws.specs.cluster_whole.Whole.{setting_behind};
ghost use Rattle.seq_run.specs.Orders.{replay};
ghost use Rattle.call_laws.specs.whole_calls.Following.{has_reached};
ghost use Rattle.recovery.specs.Journals.{IsBeforeOrAfter, NumbersFit, RecordFits, body_bytes, stored_in};
ghost use Rattle.store.specs.declared.store_format.header.Header.{Header};
ghost use Rattle.recovery.specs.records.Keeping.{GoesWith, IsGoodStore, IsNextOrder, IsRecordBehind, KeepsUp, fronts_in, recorded_in, stored_order, with_entries};
ghost use Rattle.call_laws.specs.whole_calls.Opened.{IsTraceOfCall};

/// A good store keeps up as the call opens. Where a record is due and is added, it keeps up with
/// that snapshot too.
pub fn stores_keep_up()
    ensures opens { (st : Setting) (failures : List FailureAt) (header : Header)
        (bodies : List (List ℕ)) → IsGoodStore (shared_of st failures) header bodies →
        KeepsUp st failures header bodies [] [] bodies }
    ensures grows { (st : Setting) (failures : List FailureAt) (kept : List Entry) (resumed : Bool)
        (base : BaseView) (first : Cluster) (events : List Event) (c : Cluster)
        (header : Header) (start bodies : List (List ℕ)) (made : Record) →
        IsTraceOfCall st failures kept resumed base first events c → kept ≡ stored_order start →
        KeepsUp st failures header start
        (fronts_in (going_on st base.numbers base.number) (recovers st base first) events)
        (recorded_in (going_on st base.numbers base.number) (recovers st base first) events)
        bodies →
        RecordIsDue st c.coordinator →
        IsRecordBehind st (stored_order bodies) c.base.order (snapshot_due c.coordinator) made →
        RecordFits made → NumbersFit made → length made.sections.items ≡ header.machines →
        KeepsUp st failures header start
        (fronts_in (going_on st base.numbers base.number) (recovers st base first)
        events ++ c.base.order ∷ [])
        (recorded_in (going_on st base.numbers base.number) (recovers st base first)
        events ++ snapshot_due c.coordinator ∷ []) (bodies ++ body_bytes made ∷ []) }
{}

/// The record of a snapshot that is due goes with the store: the store stays good with it, whatever
/// a crash leaves as it is added.
pub fn records_go_with_stores()
    ensures goes { (st : Setting) (failures : List FailureAt) (kept : List Entry) (resumed : Bool)
        (base : BaseView) (first : Cluster) (events : List Event) (c : Cluster)
        (header : Header) (start bodies : List (List ℕ)) (made : Record) →
        IsTraceOfCall st failures kept resumed base first events c → kept ≡ stored_order start →
        KeepsUp st failures header start
        (fronts_in (going_on st base.numbers base.number) (recovers st base first) events)
        (recorded_in (going_on st base.numbers base.number) (recovers st base first) events)
        bodies →
        RecordIsDue st c.coordinator →
        IsRecordBehind st (stored_order bodies) c.base.order (snapshot_due c.coordinator) made →
        GoesWith (shared_of st failures) bodies made }
    ensures images { (st : Setting) (failures : List FailureAt) (kept : List Entry) (resumed : Bool)
        (base : BaseView) (first : Cluster) (events : List Event) (c : Cluster)
        (header : Header) (start bodies : List (List ℕ)) (made : Record) (image : List ℕ) →
        IsTraceOfCall st failures kept resumed base first events c → kept ≡ stored_order start →
        KeepsUp st failures header start
        (fronts_in (going_on st base.numbers base.number) (recovers st base first) events)
        (recorded_in (going_on st base.numbers base.number) (recovers st base first) events)
        bodies →
        RecordIsDue st c.coordinator →
        IsRecordBehind st (stored_order bodies) c.base.order (snapshot_due c.coordinator) made →
        RecordFits made → NumbersFit made → length made.sections.items ≡ header.machines →
        IsBeforeOrAfter header bodies (body_bytes made) image →
        IsGoodStore (shared_of st failures) header (stored_in header image) }
{}

/// Where all may go back, they may to what the store has: to its last order, with the restarts that
/// it lacks of those that the attempt began with and one for each failure, and to the numbers that
/// this replays to.
pub fn recoveries_come_from_stores()
    ensures { (st : Setting) (failures : List FailureAt) (kept : List Entry) (resumed : Bool)
        (base : BaseView) (first : Cluster) (events : List Event) (c : Cluster)
        (header : Header) (start bodies : List (List ℕ)) (missing : List Entry) →
        IsTraceOfCall st failures kept resumed base first events c → kept ≡ stored_order start →
        base.number ≡ length start →
        KeepsUp st failures header start
        (fronts_in (going_on st base.numbers base.number) (recovers st base first) events)
        (recorded_in (going_on st base.numbers base.number) (recovers st base first) events)
        bodies →
        0 < failures_in st c →
        ((a : ℕ) → a < st.machines → has_reached failures c a ≡ true →
        (c.machine a).failed ≡ true) →
        filter is_restart (stored_order bodies) ++ missing ≡ filter is_restart
        c.base.order ++ restarts (failures_in st c) c.next →
        (to : BaseView) × (to.number ≡ length bodies) × (to.order ≡ stored_order bodies ++ missing)
        × HaveSameNumbers st.graph to.numbers (replay st.graph st.program to.order)
        × GoesBackTo (setting_behind (going_on st base.numbers base.number) events) c to }
{}
