//! Worked examples of replay. Each is the contract of a function that does nothing.
ghost use Rattle.std.specs.Prelude.{◌≡◌, [], ◌∷◌};
ghost use Rattle.graph_core.specs.DataGraph.{IsDataGraph};
ghost use Rattle.graph_core.specs.GraphLaws.{two_into_one};
ghost use Rattle.seq_run.specs.Runs.{updates_in_turn};
ghost use Rattle.seq_run.specs.Examples.{vertex_numbers, edge_numbers, line_and_point, along_the_line, one_after_another, ends_and_again, two_ways, far_end_first, triangle_and_point, each_once, triangle_and_tail, down_to_the_cores};
ghost use Rattle.seq_run.specs.Orders.{replay, IsValidOrder, IsFinished};
ghost use Rattle.seq_run.specs.StepBound.{updates_since_restart};
ghost use Rattle.update_api.specs.Updates.{update_of_levels, update_of_components, update_of_paths, update_of_colours, update_of_cores};

use gl_base::INF;

/// Levels of a line of three vertices and of a vertex apart.
pub fn levels_along_a_line()
    ensures graph { IsDataGraph line_and_point }
    ensures valid { IsValidOrder line_and_point (update_of_levels 1) along_the_line }
    ensures finished { IsFinished line_and_point (update_of_levels 1) along_the_line }
    ensures levels { let last = replay line_and_point (update_of_levels 1) along_the_line in
        vertex_numbers line_and_point last ≡ 0 ∷ 1 ∷ 2 ∷ INF ∷ [] }
    ensures no_second_update { IsValidOrder line_and_point (update_of_levels 1)
        (updates_in_turn 0 (3 ∷ 3 ∷ [])) → ⊥ }
{}

/// Levels where an edge leads away from the vertex that is not reached.
pub fn levels_along_directions()
    ensures graph { IsDataGraph two_into_one }
    ensures valid { IsValidOrder two_into_one (update_of_levels 1) one_after_another }
    ensures finished { IsFinished two_into_one (update_of_levels 1) one_after_another }
    ensures levels { let last = replay two_into_one (update_of_levels 1) one_after_another in
        vertex_numbers two_into_one last ≡ 0 ∷ 1 ∷ INF ∷ [] }
{}

/// Labels of the same graph, where direction is ignored, with a recovery in between.
pub fn labels_of_one_component()
    ensures valid { IsValidOrder two_into_one update_of_components ends_and_again }
    ensures finished { IsFinished two_into_one update_of_components ends_and_again }
    ensures labels { let last = replay two_into_one update_of_components ends_and_again in
        vertex_numbers two_into_one last ≡ 1 ∷ 1 ∷ 1 ∷ [] }
    ensures since_restart { updates_since_restart ends_and_again ≡ 5 }
{}

/// Distances by two ways of the same length, and the marks of the edges on them.
pub fn distances_two_ways()
    ensures graph { IsDataGraph two_ways }
    ensures valid { IsValidOrder two_ways (update_of_paths 1) far_end_first }
    ensures finished { IsFinished two_ways (update_of_paths 1) far_end_first }
    ensures distances { let last = replay two_ways (update_of_paths 1) far_end_first in
        vertex_numbers two_ways last ≡ 0 ∷ 0 ∷ 5 ∷ 5 ∷ [] }
    ensures marks { let last = replay two_ways (update_of_paths 1) far_end_first in
        edge_numbers two_ways last ≡ 1 ∷ 1 ∷ 0 ∷ 1 ∷ 1 ∷ [] }
{}

/// Colours of a triangle and of a vertex apart.
pub fn colours_of_a_triangle()
    ensures graph { IsDataGraph triangle_and_point }
    ensures valid { IsValidOrder triangle_and_point update_of_colours each_once }
    ensures finished { IsFinished triangle_and_point update_of_colours each_once }
    ensures colours { let last = replay triangle_and_point update_of_colours each_once in
        vertex_numbers triangle_and_point last ≡ 2 ∷ 1 ∷ 3 ∷ 1 ∷ [] }
{}

/// Core numbers of a triangle with a tail, and of a vertex apart.
pub fn cores_of_a_triangle_with_a_tail()
    ensures graph { IsDataGraph triangle_and_tail }
    ensures valid { IsValidOrder triangle_and_tail update_of_cores down_to_the_cores }
    ensures finished { IsFinished triangle_and_tail update_of_cores down_to_the_cores }
    ensures cores { let last = replay triangle_and_tail update_of_cores down_to_the_cores in
        vertex_numbers triangle_and_tail last ≡ 2 ∷ 2 ∷ 2 ∷ 1 ∷ 1 ∷ 0 ∷ [] }
{}
