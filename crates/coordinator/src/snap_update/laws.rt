//! Laws about what a machine keeps for snapshots, for every setting of a cluster. Each is the
//! contract of a function that does nothing.
ghost use Rattle.std.specs.Prelude.{◌≡◌, ◌+◌, ◌++◌, ℕ, List, None};
ghost use Rattle.gl_base.specs.declared.entries.Entry.{Entry};
ghost use Rattle.gl_base.specs.declared.numbers.EdgeNo.{EdgeNo};
ghost use Rattle.gl_base.specs.declared.numbers.Vertex.{Vertex};
ghost use Rattle.gl_base.specs.declared.scopes.ScopeId.{ScopeId};
ghost use Rattle.seq_run.specs.States.{GraphState};
ghost use Rattle.coordinator.specs.snap_update.Snaps.{IsSavedOnce, SnapRoom, SnapView, first_unsure, nothing_since, outside_of, own_section, with_begun, with_committed, with_entry, with_edge, with_section, with_vertex};
ghost use Rattle.coordinator.specs.snap_update.Holding.{AreEdgesToSave, Begin, Committed, IsSnapPartOf, Machine, Message, Report, Setting, Step, TellsSection, Wave, admits, asks, commits, fails, goes_back, grants, hands, hands_report, last_of_edge, last_of_vertex, makes_mark, outside, prompt, receives, sections, snapshot_in, takes_call, wants_in, with_edges, with_window, works_on};

/// A machine of the cluster begins with nothing made since a snapshot, and goes back to that.
pub fn machines_begin_with_nothing()
    ensures { (st : Setting) (numbers : GraphState) (base a : ℕ) (room : SnapRoom) (m : Machine) →
        IsSnapPartOf (nothing_since base room) (goes_back st numbers base a m) }
{}

/// A snapshot begins, by the coordinator's word or by news of a machine.
pub fn beginnings_are_known()
    ensures called { (st : Setting) (a number : ℕ) (w : SnapView) (m : Machine) → IsSnapPartOf w m →
        IsSnapPartOf (with_begun number w) (takes_call st a (Begin number) m) }
    ensures told { (st : Setting) (a : ℕ) (message : Message) (w : SnapView) (m : Machine) →
        IsSnapPartOf w m →
        IsSnapPartOf (with_begun (snapshot_in message) w) (receives st a message m) }
{}

/// The snapshot update of v saves its number, and each edge that it has to save.
pub fn marks_are_saved()
    ensures { (st : Setting) (a : ℕ) (s : ScopeId) (v : Vertex) (edges : List (EdgeNo ×
        ℕ)) (w : SnapView) (m : Machine) → IsSnapPartOf w m →
        AreEdgesToSave st m.part v.0 edges →
        IsSnapPartOf (with_edges edges (with_vertex v (m.part.datum v.0).value w))
        (makes_mark st a s v.0 m) }
{}

/// No vertex and no edge is saved twice, where each is saved only while it has no number yet.
pub fn numbers_are_saved_once()
    ensures none { (number : ℕ) (room : SnapRoom) → IsSavedOnce (nothing_since number room) }
    ensures begun { (number : ℕ) (w : SnapView) → IsSavedOnce w →
        IsSavedOnce (with_begun number w) }
    ensures vertex { (v : Vertex) (value : ℕ) (w : SnapView) → IsSavedOnce w →
        last_of_vertex w.vertices v.0 ≡ None → IsSavedOnce (with_vertex v value w) }
    ensures edge { (e : EdgeNo) (number : ℕ) (w : SnapView) → IsSavedOnce w →
        last_of_edge w.edges e.0 ≡ None → IsSavedOnce (with_edge e number w) }
{}

/// An update of v is logged before the marks or behind them, by the mark of v.
pub fn updates_are_logged()
    ensures { (st : Setting) (a v : ℕ) (s : ScopeId) (entry : Entry) (w : SnapView) (m : Machine) →
        IsSnapPartOf w m →
        IsSnapPartOf (with_entry entry (m.part.datum v).mark w) (works_on st a s v entry m) }
{}

/// The section is the one that the cluster's machine tells the coordinator.
pub fn sections_are_told()
    ensures kept { (w : SnapView) (m : Machine) → IsSnapPartOf w m →
        IsSnapPartOf (with_section w) (sections m) }
    ensures told { (w : SnapView) (m : Machine) → IsSnapPartOf w m →
        TellsSection (own_section w) m.out (sections m).out }
{}

/// Acknowledged sections are outside no more, and where half of the window is outside the next
/// snapshot is asked for.
pub fn windows_are_watched()
    ensures committed { (number : ℕ) (w : SnapView) (m : Machine) → IsSnapPartOf w m →
        IsSnapPartOf (with_committed number w) (commits number m) }
    ensures outside { (w : SnapView) (m : Machine) → IsSnapPartOf w m → outside m ≡ outside_of w }
    ensures asked { (st : Setting) (w : SnapView) (m : Machine) → IsSnapPartOf w m →
        IsSnapPartOf (with_window st w) (asks st m) }
    ensures wanted { (st : Setting) (w : SnapView) (m : Machine) → IsSnapPartOf w m →
        (asks st m).out ≡ m.out ++ wants_in st w }
{}

/// Each update is outside from when it is logged until its section is known to be acknowledged.
pub fn updates_outside_are_counted()
    ensures none { (number : ℕ) (room : SnapRoom) → outside_of (nothing_since number room) ≡ 0 }
    ensures logged { (entry : Entry) (mark : ℕ) (w : SnapView) →
        outside_of (with_entry entry mark w) ≡ outside_of w + 1 }
    ensures begun { (number : ℕ) (w : SnapView) → outside_of (with_begun number w) ≡ outside_of w }
    ensures sent { (w : SnapView) → outside_of (with_section w) ≡ outside_of w }
    ensures committed { (number : ℕ) (w : SnapView) →
        outside_of (with_committed number w) + first_unsure w.unsure ≡ outside_of w }
{}

/// The other events of the cluster's machine leave it as it is.
pub fn other_events_leave_snapshots()
    ensures admitted { (st : Setting) (a v : ℕ) (w : SnapView) (m : Machine) → IsSnapPartOf w m →
        IsSnapPartOf w (admits st a v m) }
    ensures granted { (st : Setting) (a x : ℕ) (w : SnapView) (m : Machine) → IsSnapPartOf w m →
        IsSnapPartOf w (grants st a x m) }
    ensures waved { (st : Setting) (a wave : ℕ) (w : SnapView) (m : Machine) → IsSnapPartOf w m →
        IsSnapPartOf w (takes_call st a (Wave wave) m) }
    ensures stepped { (st : Setting) (a colour : ℕ) (w : SnapView) (m : Machine) →
        IsSnapPartOf w m → IsSnapPartOf w (takes_call st a (Step colour) m) }
    ensures answered { (st : Setting) (a : ℕ) (w : SnapView) (m : Machine) → IsSnapPartOf w m →
        IsSnapPartOf w (prompt st a m) }
    ensures handed { (q : ℕ) (messages : List Message) (w : SnapView) (m : Machine) →
        IsSnapPartOf w m → IsSnapPartOf w (hands q messages m) }
    ensures reported { (reports : List Report) (w : SnapView) (m : Machine) → IsSnapPartOf w m →
        IsSnapPartOf w (hands_report reports m) }
    ensures failed { (w : SnapView) (m : Machine) → IsSnapPartOf w m → IsSnapPartOf w (fails m) }
{}
