//! Laws of greedy colourings. Each is the contract of a function that does nothing.
ghost use Rattle.std.specs.Prelude.{◌≡◌, ℕ, ◌<◌};
ghost use Rattle.graph_core.specs.Colourings.{IsProperColouring};
ghost use Rattle.graph_core.specs.DataGraph.{DataGraph, IsDataGraph, size};
ghost use Rattle.graph_core.specs.color_steps.Greedy.{IsGreedy};

/// A graph has one greedy colouring.
pub fn greedy_colours_are_unique()
    ensures { (g : DataGraph) (one other : ℕ → ℕ) (v : ℕ) → IsGreedy g one → IsGreedy g other →
        v < size g → one v ≡ other v }
{}

/// It is proper: the ends of each edge have different colours, from 1 to one more than the degree.
pub fn greedy_colours_are_proper()
    ensures { (g : DataGraph) (colour : ℕ → ℕ) → IsDataGraph g → IsGreedy g colour →
        IsProperColouring g colour }
{}
