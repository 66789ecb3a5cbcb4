//! Laws of the form of records. Each is the contract of a function that does nothing.
ghost use Rattle.std.specs.List.Sorted.{IsNonDecreasingBy};
ghost use Rattle.std.specs.Prelude.{Bool, List, length, ℕ, ◌*◌, ◌++◌, ◌+◌, ◌<◌, ◌^◌, ◌≡◌, ◌≤◌};
ghost use Rattle.gl_base.specs.declared.entries.Entry.{Entry};
ghost use Rattle.gl_base.specs.declared.jobs.FailureAt.{FailureAt};
ghost use Rattle.gl_base.specs.declared.snapshots.Record.{Record};
ghost use Rattle.call_laws.specs.attempts.EngineCalls.{ticket_above};
ghost use Rattle.cluster_laws.specs.cluster_core.Settings.{Setting};
ghost use Rattle.cluster_laws.specs.cluster_model.Clusters.{BaseView, Cluster};
ghost use Rattle.cluster_laws.specs.cluster_model.Events.{Event};
ghost use Rattle.cluster_laws.specs.cluster_model.Leading.{RecordIsDue};
ghost use Rattle.whole_laws.specs.cluster_records.Recorded.{snapshot_due};
ghost use Rattle.graph_core.specs.DataGraph.{size};
ghost use Rattle.store.specs.declared.store_format.header.Header.{Header};
ghost use Rattle.store.specs.store_format.Bodies.{IsBody};
ghost use Rattle.store.specs.store_format.Encoding.{RecordFits, body_bytes};
ghost use Rattle.store.specs.store_format.ReadBack.{NumbersFit};
ghost use Rattle.store.specs.store_format.StoredOrders.{entry_rank, stored_order};
ghost use Rattle.store.specs.store_format.Stores.{stored_in};
ghost use Rattle.recovery.specs.records.Keeping.{IsRecordBehind};
ghost use Rattle.call_laws.specs.whole_calls.Opened.{IsTraceOfCall};

/// The record of a snapshot that is due in the course of a call, with the restarts that a store
/// lacks and with its entries in their turn, is in the form of a store of this graph on these
/// machines. So it is while all tickets that the call may draw stay below the bound for the
/// record's number.
pub fn due_records_are_in_form()
    ensures fits { (st : Setting) (failures : List FailureAt) (kept : List Entry) (resumed : Bool)
        (base : BaseView) (first : Cluster) (events : List Event) (c : Cluster)
        (header : Header) (before : List Entry) (made : Record) →
        IsTraceOfCall st failures kept resumed base first events c → RecordIsDue st c.coordinator →
        header.machines ≡ st.machines → header.n ≡ size st.graph →
        header.m ≡ length st.graph.edges →
        IsRecordBehind st before c.base.order (snapshot_due c.coordinator) made →
        length made.entries.items < 2 ^ 32 → header.n < 2 ^ 32 →
        header.m < 2 ^ 32 → RecordFits made }
    ensures form { (st : Setting) (failures : List FailureAt) (kept : List Entry) (resumed : Bool)
        (base : BaseView) (first : Cluster) (events : List Event) (c : Cluster)
        (header : Header) (before : List Entry) (made : Record) →
        IsTraceOfCall st failures kept resumed base first events c → RecordIsDue st c.coordinator →
        header.machines ≡ st.machines → header.n ≡ size st.graph →
        header.m ≡ length st.graph.edges →
        IsRecordBehind st before c.base.order (snapshot_due c.coordinator) made →
        IsNonDecreasingBy entry_rank made.entries.items →
        RecordFits made → NumbersFit made → made.number < 4294967295 →
        first.next + first.left < 33554432 * made.number →
        IsBody header made.number (body_bytes made) }
{}

/// A call that opens with the order of the first snapshots of a store draws its first ticket within
/// the bound for their number.
pub fn stored_tickets_are_low()
    ensures { (header : Header) (bytes : List ℕ) (start added : List (List ℕ)) →
        stored_in header bytes ≡ start ++ added →
        ticket_above (stored_order start) ≤ 33554432 * length start }
{}
