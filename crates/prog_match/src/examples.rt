//! Worked examples of matchings. Each is the contract of a function that does nothing.
ghost use Rattle.std.specs.Prelude.{◌≡◌, [], ◌∷◌};
ghost use Rattle.graph_core.specs.DataGraph.{IsDataGraph};
ghost use Rattle.seq_run.specs.Examples.{vertex_numbers, edge_numbers};
ghost use Rattle.seq_run.specs.Runs.{updates_in_turn};
ghost use Rattle.full_scope.specs.FullOrders.{full_replay, IsFullyFinished, IsFullyValid};
ghost use Rattle.prog_match.specs.MatchingExamples.{four_in_line, third_first, first_to_fourth, third_and_again, two_edges_and_point, first_to_fifth};
ghost use Rattle.prog_match.specs.Pairs.{update_of_pairs};

use gl_base::INF;

/// Four vertices in a line. If vertex 3 is updated first, it takes vertex 2, which has the lower
/// identifier of its two neighbours, and vertices 1 and 4 find nobody. No vertex is updated twice.
pub fn the_third_takes_the_second()
    ensures graph { IsDataGraph four_in_line }
    ensures valid { IsFullyValid four_in_line update_of_pairs third_first }
    ensures finished { IsFullyFinished four_in_line update_of_pairs third_first }
    ensures mates { let last = full_replay four_in_line update_of_pairs third_first in
        vertex_numbers four_in_line last ≡ INF ∷ 3 ∷ 2 ∷ INF ∷ [] }
    ensures marks { let last = full_replay four_in_line update_of_pairs third_first in
        edge_numbers four_in_line last ≡ 0 ∷ 1 ∷ 0 ∷ [] }
    ensures no_second_update { IsFullyValid four_in_line update_of_pairs
        (updates_in_turn 0 (2 ∷ 2 ∷ [])) → ⊥ }
{}

/// The same line, updated in turn: vertex 1 takes vertex 2, and vertex 3 takes vertex 4.
pub fn the_line_is_matched_whole()
    ensures valid { IsFullyValid four_in_line update_of_pairs first_to_fourth }
    ensures finished { IsFullyFinished four_in_line update_of_pairs first_to_fourth }
    ensures mates { let last = full_replay four_in_line update_of_pairs first_to_fourth in
        vertex_numbers four_in_line last ≡ 2 ∷ 1 ∷ 4 ∷ 3 ∷ [] }
    ensures marks { let last = full_replay four_in_line update_of_pairs first_to_fourth in
        edge_numbers four_in_line last ≡ 1 ∷ 0 ∷ 1 ∷ [] }
{}

/// The same line with a recovery after the update of vertex 3: every vertex is a task again, and
/// the pair stays.
pub fn a_restart_keeps_pairs()
    ensures valid { IsFullyValid four_in_line update_of_pairs third_and_again }
    ensures finished { IsFullyFinished four_in_line update_of_pairs third_and_again }
    ensures mates { let last = full_replay four_in_line update_of_pairs third_and_again in
        vertex_numbers four_in_line last ≡ INF ∷ 3 ∷ 2 ∷ INF ∷ [] }
{}

/// Two edges and a vertex apart, which stays unmatched.
pub fn a_vertex_apart_stays_unmatched()
    ensures graph { IsDataGraph two_edges_and_point }
    ensures valid { IsFullyValid two_edges_and_point update_of_pairs first_to_fifth }
    ensures finished { IsFullyFinished two_edges_and_point update_of_pairs first_to_fifth }
    ensures mates { let last = full_replay two_edges_and_point update_of_pairs first_to_fifth in
        vertex_numbers two_edges_and_point last ≡ 2 ∷ 1 ∷ 4 ∷ 3 ∷ INF ∷ [] }
    ensures marks { let last = full_replay two_edges_and_point update_of_pairs first_to_fifth in
        edge_numbers two_edges_and_point last ≡ 1 ∷ 1 ∷ [] }
{}
