//! How far a vertex is from the source.
ghost use Rattle.std.specs.Prelude.{◌≡◌, ℕ, ◌+◌, ◌&&◌, if◌then◌else◌, min, nat_lt, map};
ghost use Rattle.std.specs.List.{filter};
ghost use Rattle.update_api.specs.Directions.{leads_out, leads_into};
ghost use Rattle.update_api.specs.Marks.{AreMarked};
ghost use Rattle.update_api.specs.Scopes.{numbers, nears};
ghost use Rattle.update_api.specs.Updates.{least, comes_reached, update_of_paths};

use gl_base::INF;
use update_api::{Direction, Program, Scope, Woken};

/// Each vertex gets its distance: the least sum of weights along a walk from the source to it, and
/// `INF` where there is no walk. Each edge gets 1 where it is tight, which is where a distance and
/// the edge's weight make up the distance that it leads to, and 0 elsewhere.
#[derive(Clone, Copy)]
pub struct Paths {
    /// The identifier of the source.
    pub source: u64,
}

impl Program for Paths {
    ghost meaning = { λ p. update_of_paths p.source };

    fn start(&self, id: u64) -> u64 {
        if id == self.source { 0 } else { INF }
    }

    fn update(&self, scope: &mut Scope<'_>) -> Woken {
        let old = scope.centre();
        let new = least_distance(scope);
        mark_edges(scope, new);
        if new == old {
            return Woken::Nobody;
        }
        *scope.centre_mut() = new;
        Woken::Ahead
    }
}

/// The least of the vertex's own distance and, for each in-neighbour that was reached, its distance
/// and the weight of the edge.
fn least_distance(scope: &Scope<'_>) -> u64
    ensures { let reached = filter comes_reached (nears scope.now) in
        result ≡ least scope.now.centre.now (map (λ near. near.number + near.weight) reached) }
{
    let mut distance = scope.centre();
    for i in 0..scope.degree() {
        let comes = scope.direction(i).leads_into();
        distance = lowered(distance, scope.near(i), scope.weight(i), comes);
    }
    distance
}

/// The distance, or that of a neighbour which was reached and from which an edge of this weight
/// comes, together with the weight, where that is less.
fn lowered(distance: u64, neighbour: u64, weight: u32, comes: bool) -> u64
    ensures { result
        ≡ (if comes && nat_lt neighbour INF then min distance (neighbour + weight) else distance) }
{
    if comes && neighbour < INF {
        distance.min(neighbour + u64::from(weight))
    } else {
        distance
    }
}

/// Marks each edge at the vertex, which has the distance `own` now: 1 where it is tight, and 0
/// elsewhere. No mark depends on the source, and so the contracts name any.
fn mark_edges(scope: &mut Scope<'_>, own: u64)
    ensures marks { let mark = (update_of_paths 0).mark own in
        AreMarked mark (numbers scope.old) scope.old.edges.now
        scope.old.links.now scope.new.edges.now }
    ensures same_id { scope.new.id ≡ scope.old.id }
    ensures same_links { scope.new.links.now ≡ scope.old.links.now }
    ensures same_low { scope.new.low.now ≡ scope.old.low.now }
    ensures same_centre { scope.new.centre ≡ scope.old.centre }
    ensures same_high { scope.new.high.now ≡ scope.old.high.now }
    ensures same_edges { scope.new.edges.ghost_name ≡ scope.old.edges.ghost_name }
{
    for i in 0..scope.degree() {
        let mark = mark_of(own, scope.near(i), scope.weight(i), scope.direction(i));
        *scope.edge_mut(i) = mark;
    }
}

/// The mark of an edge of this weight: 1 where it leads without slack from a reached end to the
/// other one, and 0 elsewhere.
fn mark_of(own: u64, neighbour: u64, weight: u32, direction: Direction) -> u64
    ensures { (old : ℕ) → let out = leads_out direction in
        let into = leads_into direction in
        result ≡ (update_of_paths 0).mark own
        (record { number = neighbour; mark = old; weight = weight; out = out; into = into }) }
{
    let weight = u64::from(weight);
    let forth = direction.leads_out() && own < INF && own + weight == neighbour;
    let back = direction.leads_into() && neighbour < INF && neighbour + weight == own;
    if forth || back { 1 } else { 0 }
}
