//! Neighbours in pairs, greedily.
ghost use Rattle.std.specs.Prelude.{◌≡◌, ◌+◌, ◌<◌, ◌==◌, ◌&&◌, if◌then◌else◌, min, length, slice_set};
ghost use Rattle.full_scope.specs.FullLinks.{AreWritten};
ghost use Rattle.full_scope.specs.FullScopes.{surroundings};
ghost use Rattle.prog_match.specs.Pairs.{is_unmatched, least_unmatched, update_of_pairs};

use full_scope::{FullProgram, FullScope};
use gl_base::INF;
use update_api::Woken;

/// Matches each unmatched vertex with its unmatched neighbour of least identifier, where there is
/// one: each gets the other's identifier, and the edge between them 1. `INF` stands for no mate.
#[derive(Clone, Copy)]
pub struct Pairs;

impl FullProgram for Pairs {
    ghost meaning = { λ p. update_of_pairs };

    fn start(&self, _id: u64) -> u64 {
        INF
    }

    fn update(&self, scope: &mut FullScope<'_>) -> Woken {
        if scope.centre() == INF {
            let mate = least_unmatched_id(scope);
            match_with(scope, mate);
            *scope.centre_mut() = mate;
        }
        Woken::Nobody
    }
}

/// Returns the least identifier of an unmatched neighbour, and `INF` if there is none.
fn least_unmatched_id(scope: &FullScope<'_>) -> u64
    ensures { result ≡ least_unmatched (surroundings scope.now).neighbours }
{
    let mut least = INF;
    for i in 0..scope.degree() {
        least = lowered(least, scope.near(i), scope.near_id(i));
    }
    least
}

/// Returns the lesser of the two identifiers, if the neighbour with this number and identifier is
/// unmatched, and else the first.
fn lowered(least: u64, number: u64, id: u64) -> u64
    ensures { result ≡ (if number == INF then min least id else least) }
{
    if number == INF { least.min(id) } else { least }
}

/// Gives the unmatched neighbour with this identifier that of the vertex, and the edge between them
/// 1.
fn match_with(scope: &mut FullScope<'_>, mate: u64)
    ensures numbers { let id = scope.old.id in
        AreWritten (λ n. if is_unmatched n && n.id == mate then id else n.near.number)
        (λ n. if is_unmatched n && n.id == mate then 1 else n.near.mark)
        scope.old.links.now scope.old.numbers.now scope.new.numbers.now }
    ensures same_id { scope.new.id ≡ scope.old.id }
    ensures same_links { scope.new.links.now ≡ scope.old.links.now }
    ensures same_centre { scope.new.centre ≡ scope.old.centre }
    ensures same_numbers { scope.new.numbers.ghost_name ≡ scope.old.numbers.ghost_name }
{
    for i in 0..scope.degree() {
        if scope.near(i) == INF && scope.near_id(i) == mate {
            match_at(scope, i);
        }
    }
}

/// Gives the neighbour along this edge the identifier of the vertex, and the edge 1.
fn match_at(scope: &mut FullScope<'_>, i: usize)
    requires { i < length scope.old.links.now }
    ensures numbers { let place = length scope.old.links.now + i in
        scope.new.numbers.now
        ≡ slice_set (slice_set scope.old.numbers.now i scope.old.id) place 1 }
    ensures same_id { scope.new.id ≡ scope.old.id }
    ensures same_links { scope.new.links.now ≡ scope.old.links.now }
    ensures same_centre { scope.new.centre ≡ scope.old.centre }
    ensures same_numbers { scope.new.numbers.ghost_name ≡ scope.old.numbers.ghost_name }
{
    let id = scope.id();
    *scope.near_mut(i) = id;
    *scope.edge_mut(i) = 1;
}

#[cfg(test)]
mod tests {
    use super::*;
    use full_scope::{FullLink, update_lent};
    use update_api::Direction;

    /// An edge without direction to the vertex with this identifier.
    fn link(id: u64) -> FullLink
        ensures { result.id ≡ id }
    {
        FullLink {
            id,
            weight: 1,
            direction: Direction::Both,
        }
    }

    /// Vertex 3 has the neighbours 2 and 4: what its update leaves of its own number, of theirs and
    /// of the two edges.
    #[test]
    fn updates_of_the_third_of_four(rt: HostRuntime) {
        let links = [link(2), link(4)];
        let rows = [
            (INF, [INF, INF, 0, 0], 2, [3, INF, 1, 0]),
            (INF, [1, INF, 0, 0], 4, [1, 3, 0, 1]),
            (INF, [1, 5, 0, 0], INF, [1, 5, 0, 0]),
            (4, [INF, 3, 0, 1], 4, [INF, 3, 0, 1]),
        ];
        for (before, numbers, mate, after) in rows {
            let (mut own, mut row) = (before, numbers);
            let woken = update_lent(&Pairs, 3, &links, &mut own, &mut row);
            assert_eq!(rt; own, mate);
            assert_eq!(rt; row, after);
            assert_eq!(rt; woken, Woken::Nobody);
        }
    }
}
