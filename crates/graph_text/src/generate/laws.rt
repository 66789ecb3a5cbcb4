//! Laws about made graphs. Each is the contract of a function that does nothing.
ghost use Rattle.std.specs.Prelude.{◌≡◌, ◌≢◌, ℕ, ◌*◌, ◌<◌, ◌≤◌, Bool, Ok};
ghost use Rattle.gl_base.specs.declared.jobs.MakePlan.{MakePlan};
ghost use Rattle.graph_core.specs.DataGraph.{DataGraph};
ghost use Rattle.graph_text.specs.Edges.{edges_of};
ghost use Rattle.graph_text.specs.generate.Making.{IsPlanInRange, IsStride, HasWeights, HaveSameEnds, edge_from, edge_to, offset_count, made_edges, made_ids, made_list, made_vertices, neighbour_offset};
ghost use Rattle.graph_text.specs.GraphTexts.{ListsIds, DescribeGraph};

/// There is one stride.
pub fn strides_are_unique()
    ensures { (half t u : ℕ) → IsStride half t → IsStride half u → t ≡ u }
{}

/// Offsets are apart, at least 1 and below half of the vertices.
pub fn offsets_are_apart()
    ensures apart { (number vertices stride i j : ℕ) → IsStride (offset_count vertices) stride →
        i < offset_count vertices → j < offset_count vertices → i ≢ j →
        neighbour_offset number (offset_count vertices) stride i ≢ neighbour_offset number
        (offset_count vertices) stride j }
    ensures some { (number vertices stride k : ℕ) →
        1 ≤ neighbour_offset number (offset_count vertices) stride k }
    ensures small { (number vertices stride k : ℕ) → 0 < offset_count vertices →
        neighbour_offset number (offset_count vertices) stride k * 2 < vertices }
{}

/// No edge joins a vertex to itself, and no two have the same ends, either way round.
pub fn made_edges_are_apart()
    ensures loops { (plan : MakePlan) (stride i : ℕ) → IsPlanInRange plan → i < plan.edges →
        edge_from plan i ≢ edge_to plan stride i }
    ensures doubles { (plan : MakePlan) (stride i j : ℕ) → IsPlanInRange plan →
        IsStride (offset_count plan.vertices) stride → i < plan.edges → j < plan.edges → i ≢ j →
        HaveSameEnds plan stride i j → ⊥ }
{}

/// A made vertex text lists the identifiers from 1 to the number of vertices.
pub fn made_vertices_are_listed()
    ensures { (plan : MakePlan) → IsPlanInRange plan →
        ListsIds (made_vertices plan) (made_ids plan.vertices) }
{}

/// A made edge text tells its edges, over the identifiers of the vertex text: with a direction or
/// without, and with weights, where it has them, or without.
pub fn made_edges_are_listed()
    ensures { (plan : MakePlan) (stride : ℕ) (directed weighted : Bool) → IsPlanInRange plan →
        IsStride (offset_count plan.vertices) stride → HasWeights weighted plan.weight →
        edges_of (made_ids plan.vertices) directed weighted (made_edges plan stride) ≡ Ok
        (made_list weighted plan stride plan.edges) }
{}

/// The two texts tell a graph.
pub fn made_texts_describe_graphs()
    ensures { (plan : MakePlan) (stride : ℕ) (directed weighted : Bool) → IsPlanInRange plan →
        IsStride (offset_count plan.vertices) stride → HasWeights weighted plan.weight →
        (g : DataGraph) × DescribeGraph directed weighted (made_vertices plan)
        (made_edges plan stride) g }
{}
