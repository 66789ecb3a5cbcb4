//! Laws about updates that may write their neighbours too, and about their orders. Each is the
//! contract of a function that does nothing.
ghost use Rattle.std.specs.Prelude.{◌≡◌, ◌≢◌, ℕ, ◌↔◌, false, List, [], ◌∷◌, ◌++◌, slice_index};
ghost use Rattle.std.specs.List.{AllByRecursion};
ghost use Rattle.gl_base.specs.declared.entries.Entry.{Entry};
ghost use Rattle.graph_core.specs.DataGraph.{DataGraph, IsDataGraph};
ghost use Rattle.graph_core.specs.Halves.{halves_of};
ghost use Rattle.seq_run.specs.Orders.{MayCome};
ghost use Rattle.seq_run.specs.States.{GraphState, is_woken};
ghost use Rattle.full_scope.specs.declared.links.FullLink.{FullLink};
ghost use Rattle.full_scope.specs.FullLinks.{AreWritten, seen_in};
ghost use Rattle.full_scope.specs.FullOrders.{full_entry, full_replay, full_tasks_entry, full_tasks_after, IsFullyValid};
ghost use Rattle.full_scope.specs.FullRows.{AreAround};
ghost use Rattle.full_scope.specs.FullStates.{after_full, full_wakes, AgreeAround};
ghost use Rattle.full_scope.specs.FullUpdates.{FullUpdate};

/// One more entry at the end of an order: what it does to the numbers and the tasks, and when it
/// may come.
pub fn full_orders_go_on()
    ensures replay { (g : DataGraph) (p : FullUpdate) (order : List Entry) (entry : Entry) →
        full_replay g p (order ++ entry ∷ []) ≡ full_entry g p (full_replay g p order) entry }
    ensures tasks { (g : DataGraph) (p : FullUpdate) (order : List Entry) (entry : Entry) →
        full_tasks_after g p (order ++ entry ∷ [])
        ≡ full_tasks_entry g p (full_replay g p order) (full_tasks_after g p order) entry }
    ensures valid { (g : DataGraph) (p : FullUpdate) (order : List Entry) (entry : Entry) →
        (IsFullyValid g p (order ++ entry ∷ []))
        ↔ (IsFullyValid g p order × MayCome (full_tasks_after g p order) entry) }
{}

/// An update of v leaves all numbers except those of v, of its neighbours and of the edges at v. If
/// two states agree on these, it writes the same there and wakes the same vertices.
pub fn full_updates_are_local()
    ensures vertices { (g : DataGraph) (p : FullUpdate) (s : GraphState) (v x : ℕ) →
        x ≢ v → AllByRecursion (λ h. x ≢ h.other) (halves_of g v) →
        (after_full g p s v).vertex x ≡ s.vertex x }
    ensures edges { (g : DataGraph) (p : FullUpdate) (s : GraphState) (v e : ℕ) →
        AllByRecursion (λ h. e ≢ h.edge) (halves_of g v) → (after_full g p s v).edge e ≡ s.edge e }
    ensures same_vertices { (g : DataGraph) (p : FullUpdate) (s t : GraphState) (v x : ℕ) →
        AgreeAround g s t v → s.vertex x ≡ t.vertex x →
        (after_full g p s v).vertex x ≡ (after_full g p t v).vertex x }
    ensures same_edges { (g : DataGraph) (p : FullUpdate) (s t : GraphState) (v e : ℕ) →
        AgreeAround g s t v → s.edge e ≡ t.edge e →
        (after_full g p s v).edge e ≡ (after_full g p t v).edge e }
    ensures same_wakes { (g : DataGraph) (p : FullUpdate) (s t : GraphState) (v u : ℕ) →
        AgreeAround g s t v → full_wakes g p s v u ≡ full_wakes g p t v u }
{}

/// If lists have the links and the numbers around v, an update of v on them is the update of v on
/// the graph. For the numbers that it leaves, edges must have no direction: with a direction a
/// neighbour may stand in the lists twice, and get two numbers.
pub fn full_rows_have_their_scope()
    ensures number { (g : DataGraph) (p : FullUpdate) (s : GraphState) (v : ℕ)
        (links : List FullLink) (numbers : List ℕ) → IsDataGraph g → AreAround g s v links numbers →
        let seen = seen_in (slice_index g.ids v) (s.vertex v) links numbers in
        (after_full g p s v).vertex v ≡ p.number seen }
    ensures numbers { (g : DataGraph) (p : FullUpdate) (s : GraphState) (v : ℕ)
        (links : List FullLink) (old new : List ℕ) →
        IsDataGraph g → g.directed ≡ false → AreAround g s v links old →
        let seen = seen_in (slice_index g.ids v) (s.vertex v) links old in
        AreWritten (p.near seen) (p.mark seen) links old new →
        AreAround g (after_full g p s v) v links new }
    ensures wakes { (g : DataGraph) (p : FullUpdate) (s : GraphState) (v : ℕ)
        (links : List FullLink) (numbers : List ℕ) → IsDataGraph g → AreAround g s v links numbers →
        (u : ℕ) → let seen = seen_in (slice_index g.ids v) (s.vertex v) links numbers in
        full_wakes g p s v u ≡ is_woken (p.woken seen) (halves_of g v) u }
{}
