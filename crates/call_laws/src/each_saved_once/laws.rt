//! Laws of the snapshot that is due in the course of a call. Each is the contract of a function
//! that does nothing.
ghost use Rattle.std.specs.List.{AllByRecursion};
ghost use Rattle.std.specs.Prelude.{Bool, List, Some, length, suc, ℕ, ◌+◌, ◌<◌, ◌≡◌, ◌≤◌};
ghost use Rattle.gl_base.specs.declared.entries.Entry.{Entry};
ghost use Rattle.gl_base.specs.declared.jobs.FailureAt.{FailureAt};
ghost use Rattle.cluster_laws.specs.cluster_core.Replays.{ticket_of};
ghost use Rattle.cluster_laws.specs.cluster_core.Settings.{Setting};
ghost use Rattle.cluster_laws.specs.cluster_model.Clusters.{BaseView, Cluster};
ghost use Rattle.cluster_laws.specs.cluster_model.Events.{Event, entries_below};
ghost use Rattle.cluster_laws.specs.cluster_model.Leading.{RecordIsDue};
ghost use Rattle.whole_laws.specs.cluster_records.Recorded.{IsOwnUpdate, snapshot_due};
ghost use Rattle.graph_core.specs.DataGraph.{size};
ghost use Rattle.call_laws.specs.whole_calls.Opened.{IsTraceOfCall};

/// Where a record is due in the course of a call, it is that of the next snapshot behind the newest
/// one that was acknowledged.
pub fn due_snapshots_come_next()
    ensures { (st : Setting) (failures : List FailureAt) (kept : List Entry) (resumed : Bool)
        (base : BaseView) (first : Cluster) (events : List Event) (c : Cluster) →
        IsTraceOfCall st failures kept resumed base first events c → RecordIsDue st c.coordinator →
        c.coordinator.begun ≡ suc c.coordinator.acknowledged }
{}

/// Where a record is due in the course of a call, no edge stands in the sections of two machines.
pub fn edges_are_saved_once()
    ensures { (st : Setting) (failures : List FailureAt) (kept : List Entry) (resumed : Bool)
        (base : BaseView) (first : Cluster) (events : List Event) (c : Cluster) →
        IsTraceOfCall st failures kept resumed base first events c → RecordIsDue st c.coordinator →
        (a b e x y : ℕ) → a < st.machines → b < st.machines → e < length st.graph.edges →
        ((snapshot_due c.coordinator).sections a).section.edges e ≡ Some x →
        ((snapshot_due c.coordinator).sections b).section.edges e ≡ Some y → a ≡ b }
{}

/// Where a record is due in the course of a call, its sections have vertices and edges of the graph
/// alone, and bring updates of its vertices alone, each by the machine that owns the vertex.
pub fn sections_keep_to_the_graph()
    ensures vertices { (st : Setting) (failures : List FailureAt) (kept : List Entry)
        (resumed : Bool) (base : BaseView) (first : Cluster) (events : List Event) (c : Cluster) →
        IsTraceOfCall st failures kept resumed base first events c → RecordIsDue st c.coordinator →
        (a v x : ℕ) → a < st.machines →
        ((snapshot_due c.coordinator).sections a).section.vertices v ≡ Some x → v < size st.graph }
    ensures edges { (st : Setting) (failures : List FailureAt) (kept : List Entry) (resumed : Bool)
        (base : BaseView) (first : Cluster) (events : List Event) (c : Cluster) →
        IsTraceOfCall st failures kept resumed base first events c → RecordIsDue st c.coordinator →
        (a e x : ℕ) → a < st.machines →
        ((snapshot_due c.coordinator).sections a).section.edges e ≡ Some x →
        e < length st.graph.edges }
    ensures updates { (st : Setting) (failures : List FailureAt) (kept : List Entry)
        (resumed : Bool) (base : BaseView) (first : Cluster) (events : List Event) (c : Cluster) →
        IsTraceOfCall st failures kept resumed base first events c → RecordIsDue st c.coordinator →
        AllByRecursion (IsOwnUpdate st) (entries_below st.machines (snapshot_due c.coordinator)) }
{}

/// Through failures and recoveries, the next ticket and the tickets that are left are together the
/// first ticket and the budget. So each update that a snapshot that is due brings has a lower
/// ticket; and no entry of the order that the attempt began with, restarts among them, has a higher
/// one.
pub fn tickets_keep_to_the_budget()
    ensures next { (st : Setting) (failures : List FailureAt) (kept : List Entry) (resumed : Bool)
        (base : BaseView) (first : Cluster) (events : List Event) (c : Cluster) →
        IsTraceOfCall st failures kept resumed base first events c →
        c.next + c.left ≡ first.next + first.left }
    ensures updates { (st : Setting) (failures : List FailureAt) (kept : List Entry)
        (resumed : Bool) (base : BaseView) (first : Cluster) (events : List Event) (c : Cluster) →
        IsTraceOfCall st failures kept resumed base first events c → RecordIsDue st c.coordinator →
        AllByRecursion (λ entry. ticket_of entry < first.next + first.left)
        (entries_below st.machines (snapshot_due c.coordinator)) }
    ensures front { (st : Setting) (failures : List FailureAt) (kept : List Entry) (resumed : Bool)
        (base : BaseView) (first : Cluster) (events : List Event) (c : Cluster) →
        IsTraceOfCall st failures kept resumed base first events c →
        AllByRecursion (λ entry. ticket_of entry ≤ first.next + first.left) c.base.order }
{}
