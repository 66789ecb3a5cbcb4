//! Laws about orders of updates. Each is the contract of a function that does nothing, and each is
//! about orders alone: it holds of the order of any run, on however many machines and threads.
ghost use Rattle.std.specs.Prelude.{◌≡◌, ℕ, ◌+◌, ◌<◌, ◌≤◌, ◌↔◌, true, false, List, [], ◌∷◌, ◌++◌, slice_get, slice_index, Some};
ghost use Rattle.gl_base.specs.declared.entries.Entry.{Entry};
ghost use Rattle.gl_base.specs.declared.entries.Entry.TheVariants.{Go, Restart};
ghost use Rattle.gl_base.specs.declared.jobs.Algorithm.TheVariants.{Levels, Components, Paths, Colours, Cores};
ghost use Rattle.gl_base.specs.declared.numbers.MachineNo.{MachineNo};
ghost use Rattle.gl_base.specs.declared.numbers.Vertex.{Vertex};
ghost use Rattle.graph_core.specs.Colourings.{IsProperColouring};
ghost use Rattle.graph_core.specs.Components.{IsComponentLabel};
ghost use Rattle.graph_core.specs.DataGraph.{DataEdge, DataGraph, size, IsDataGraph};
ghost use Rattle.graph_core.specs.Levels.{IsLevelOrInf, IsDistanceOrInf};
ghost use Rattle.seq_run.specs.CoreNumbers.{IsCoreNumber};
ghost use Rattle.seq_run.specs.FirstColours.{WasLeastFree};
ghost use Rattle.seq_run.specs.Orders.{after_entry, replay, tasks_after_entry, tasks_after, MayCome, IsValidOrder, IsFinished};
ghost use Rattle.seq_run.specs.StepBound.{updates_since_restart, step_bound};
ghost use Rattle.seq_run.specs.TightEdges.{IsTight, IsMark};
ghost use Rattle.update_api.specs.Updates.{Update, update_of_levels, update_of_components, update_of_paths, update_of_colours, update_of_cores};

/// One more entry at the end of an order: what it does to the numbers and the tasks, and when it
/// may come.
pub fn orders_go_on()
    ensures replay { (g : DataGraph) (p : Update) (order : List Entry) (entry : Entry) →
        replay g p (order ++ entry ∷ []) ≡ after_entry g p (replay g p order) entry }
    ensures tasks { (g : DataGraph) (p : Update) (order : List Entry) (entry : Entry) →
        tasks_after g p (order ++ entry ∷ [])
        ≡ tasks_after_entry g p (replay g p order) (tasks_after g p order) entry }
    ensures valid { (g : DataGraph) (p : Update) (order : List Entry) (entry : Entry) →
        (IsValidOrder g p (order ++ entry ∷ []))
        ↔ (IsValidOrder g p order × MayCome (tasks_after g p order) entry) }
    ensures update { (order : List Entry) (ticket : ℕ) (machine : MachineNo) (vertex : Vertex) →
        let longer = order ++ Go machine vertex ticket ∷ [] in
        updates_since_restart longer ≡ updates_since_restart order + 1 }
    ensures restart { (order : List Entry) (ticket : ℕ) →
        updates_since_restart (order ++ Restart ticket ∷ []) ≡ 0 }
{}

/// Only vertices of the graph are tasks.
pub fn tasks_are_vertices()
    ensures { (g : DataGraph) (p : Update) → IsDataGraph g →
        (order : List Entry) (u : ℕ) → tasks_after g p order u ≡ true → u < size g }
{}

/// Once no task is left, each vertex has its level from the source, and `INF` where no walk goes
/// there.
pub fn levels_are_levels()
    ensures { (g : DataGraph) (source : ℕ) → IsDataGraph g → source < size g →
        let levels = update_of_levels (slice_index g.ids source) in
        (order : List Entry) → IsValidOrder g levels order → IsFinished g levels order →
        (v : ℕ) → v < size g → IsLevelOrInf g source v ((replay g levels order).vertex v) }
{}

/// Once no task is left, each vertex has its distance from the source, and `INF` where no walk goes
/// there.
pub fn paths_are_distances()
    ensures { (g : DataGraph) (source : ℕ) → IsDataGraph g → source < size g →
        let paths = update_of_paths (slice_index g.ids source) in
        (order : List Entry) → IsValidOrder g paths order → IsFinished g paths order →
        (v : ℕ) → v < size g → IsDistanceOrInf g source v ((replay g paths order).vertex v) }
{}

/// Once no task is left, each edge is marked: 1 where it is tight, and 0 elsewhere. Here `e` is
/// edge number `k`.
pub fn marks_are_tight()
    ensures { (g : DataGraph) (source : ℕ) → IsDataGraph g →
        let paths = update_of_paths source in
        (order : List Entry) → IsValidOrder g paths order → IsFinished g paths order →
        (k : ℕ) (e : DataEdge) → slice_get g.edges k ≡ Some e →
        let last = replay g paths order in
        IsMark (last.edge k) (IsTight g.directed last.vertex e) }
{}

/// Once no task is left, each vertex has the label of its component.
pub fn components_are_labels()
    ensures { (g : DataGraph) → IsDataGraph g →
        let components = update_of_components in
        (order : List Entry) → IsValidOrder g components order → IsFinished g components order →
        (v : ℕ) → v < size g → IsComponentLabel g v ((replay g components order).vertex v) }
{}

/// Once no task is left, the colours are a proper colouring within the degree bound.
pub fn colours_are_proper()
    ensures { (g : DataGraph) → IsDataGraph g →
        let colours = update_of_colours in
        (order : List Entry) → IsValidOrder g colours order → IsFinished g colours order →
        IsProperColouring g (replay g colours order).vertex }
{}

/// Once no task is left, the colour of each vertex is the least that was free when the vertex got
/// it.
pub fn colours_are_least_free()
    ensures { (g : DataGraph) → IsDataGraph g →
        let colours = update_of_colours in
        (order : List Entry) → IsValidOrder g colours order → IsFinished g colours order →
        (v : ℕ) → v < size g → WasLeastFree g order v ((replay g colours order).vertex v) }
{}

/// Where edges have no direction, once no task is left, each vertex has its core number.
pub fn cores_are_core_numbers()
    ensures { (g : DataGraph) → IsDataGraph g → g.directed ≡ false →
        let cores = update_of_cores in
        (order : List Entry) → IsValidOrder g cores order → IsFinished g cores order →
        (v : ℕ) → v < size g → IsCoreNumber g v ((replay g cores order).vertex v) }
{}

/// No valid order, finished or not, has more updates after its last restart than the step bound.
pub fn updates_are_few()
    ensures levels { (g : DataGraph) (source : ℕ) → IsDataGraph g → source < size g →
        let levels = update_of_levels (slice_index g.ids source) in
        (order : List Entry) → IsValidOrder g levels order →
        updates_since_restart order ≤ step_bound g Levels }
    ensures components { (g : DataGraph) → IsDataGraph g →
        (order : List Entry) → IsValidOrder g update_of_components order →
        updates_since_restart order ≤ step_bound g Components }
    ensures paths { (g : DataGraph) (source : ℕ) → IsDataGraph g → source < size g →
        let paths = update_of_paths (slice_index g.ids source) in
        (order : List Entry) → IsValidOrder g paths order →
        updates_since_restart order ≤ step_bound g Paths }
    ensures colours { (g : DataGraph) → IsDataGraph g →
        (order : List Entry) → IsValidOrder g update_of_colours order →
        updates_since_restart order ≤ step_bound g Colours }
    ensures cores { (g : DataGraph) → IsDataGraph g → g.directed ≡ false →
        (order : List Entry) → IsValidOrder g update_of_cores order →
        updates_since_restart order ≤ step_bound g Cores }
{}
