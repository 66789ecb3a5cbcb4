//! Laws about data graphs. Each is the contract of a function that does nothing.
ghost use Rattle.std.specs.Prelude.{◌≡◌, ◌↔◌, ℕ, ◌+◌, ◌<◌, ◌≤◌, Bool, true, false, List, [], ◌∷◌, ◌++◌, length, map, reverse, sum_by, AllPairs, Contains};
ghost use Rattle.gl_base.specs.declared.limits.TheConstants.{INF};
ghost use Rattle.graph_core.specs.DataGraph.{DataEdge, DataGraph, IsDataGraph, size};
ghost use Rattle.graph_core.specs.Walks.{Leads, IsWalk, Walk};
ghost use Rattle.graph_core.specs.Levels.{IsLevelOrInf, IsDistanceOrInf, AreLevels};
ghost use Rattle.graph_core.specs.Components.{Joined};
ghost use Rattle.graph_core.specs.Colourings.{IsProperColouring, degree_of};
ghost use Rattle.graph_core.specs.Halves.{DataHalf, halves_of};
ghost use Rattle.graph_core.specs.Neighbours.{neighbours_of};
ghost use Rattle.graph_core.specs.GraphLaws.{IsHalfAt, path_of_three, two_into_one};

/// A vertex has one level from another.
pub fn levels_are_unique()
    ensures { (g : DataGraph) (a v x y : ℕ) → IsLevelOrInf g a v x → IsLevelOrInf g a v y → x ≡ y }
{}

/// A vertex has one distance from another.
pub fn distances_are_unique()
    ensures { (g : DataGraph) (a v x y : ℕ) → IsDistanceOrInf g a v x →
        IsDistanceOrInf g a v y → x ≡ y }
{}

/// A walk to a vertex and one on from there make a walk, and where edges have no direction each
/// walk can be gone back.
pub fn walks_join()
    ensures append { (edges : List DataEdge) (directed : Bool) (a b c : ℕ)
        (path more : List DataEdge) → IsWalk edges directed a b path →
        IsWalk edges directed b c more → IsWalk edges directed a c (path ++ more) }
    ensures back { (edges : List DataEdge) (a b : ℕ) (path : List DataEdge) →
        IsWalk edges false a b path → IsWalk edges false b a (reverse path) }
{}

/// To be joined is an equivalence.
pub fn joined_is_equivalence()
    ensures same { (g : DataGraph) (a : ℕ) → Joined g a a }
    ensures back { (g : DataGraph) (a b : ℕ) → Joined g a b → Joined g b a }
    ensures on { (g : DataGraph) (a b c : ℕ) → Joined g a b → Joined g b c → Joined g a c }
{}

/// Numbers that no edge raises by more than it costs bound each walk from below.
pub fn numbers_bound_walks()
    ensures { (g : DataGraph) (number : ℕ → ℕ) (cost : DataEdge → ℕ) →
        ((e : DataEdge) (a b : ℕ) → Contains g.edges e → Leads g.directed e a b →
        number b ≤ number a + cost e) → (a v : ℕ) (path : List DataEdge) → Walk g a v path →
        number v ≤ number a + sum_by cost path }
{}

/// A walk does not leave vertices that no edge leaves.
pub fn walks_stay()
    ensures { (g : DataGraph) (inside : ℕ → Bool) →
        ((e : DataEdge) (a b : ℕ) → Contains g.edges e → Leads g.directed e a b → inside a ≡ true →
        inside b ≡ true) → (a v : ℕ) (path : List DataEdge) → Walk g a v path →
        inside a ≡ true → inside v ≡ true }
{}

/// The half-edges at a vertex are those of the edges at it, each once, ascending.
pub fn halves_are_edges()
    ensures each { (g : DataGraph) (v : ℕ) (h : DataHalf) → Contains (halves_of g v) h →
        ((e : DataEdge) × IsHalfAt g v h e) }
    ensures all { (g : DataGraph) (v : ℕ) (h : DataHalf) (e : DataEdge) → IsDataGraph g →
        IsHalfAt g v h e → Contains (halves_of g v) h }
    ensures ascending { (g : DataGraph) (v : ℕ) →
        AllPairs (λ h k. h.edge < k.edge) (halves_of g v) }
{}

/// The neighbours of a vertex are the other ends of the half-edges at it, each once, ascending.
pub fn neighbours_are_ends()
    ensures same { (g : DataGraph) (v u : ℕ) → IsDataGraph g →
        (Contains (neighbours_of g v) u ↔ Contains (map (λ h. h.other) (halves_of g v)) u) }
    ensures ascending { (g : DataGraph) (v : ℕ) → AllPairs (λ u w. u < w) (neighbours_of g v) }
{}

/// The degree counts the neighbours, which are fewer than the vertices. So no proper colouring
/// needs more colours than there are vertices.
pub fn degrees_count_neighbours()
    ensures count { (g : DataGraph) (v : ℕ) → degree_of g v ≡ length (neighbours_of g v) }
    ensures low { (g : DataGraph) (v : ℕ) → IsDataGraph g → v < size g → degree_of g v < size g }
    ensures colours { (g : DataGraph) (colour : ℕ → ℕ) (v : ℕ) → IsDataGraph g →
        IsProperColouring g colour → v < size g → colour v ≤ size g }
{}

/// The levels of two small graphs from their first vertex.
pub fn levels_of_small_graphs()
    ensures path { AreLevels path_of_three 0 (0 ∷ 1 ∷ 2 ∷ INF ∷ []) }
    ensures two { AreLevels two_into_one 0 (0 ∷ 1 ∷ INF ∷ []) }
{}
