//! How many edges a vertex is away from the source.
ghost use Rattle.std.specs.Prelude.{◌≡◌, ◌+◌, ◌&&◌, if◌then◌else◌, min, nat_lt, map};
ghost use Rattle.std.specs.List.{filter};
ghost use Rattle.update_api.specs.Scopes.{nears};
ghost use Rattle.update_api.specs.Updates.{least, comes_reached, update_of_levels};

use gl_base::INF;
use update_api::{Program, Scope, Woken};

/// Each vertex gets its level: how many edges a shortest walk from the source to it has, and `INF`
/// where there is no walk.
#[derive(Clone, Copy)]
pub struct Levels {
    /// The identifier of the source.
    pub source: u64,
}

impl Program for Levels {
    ghost meaning = { λ p. update_of_levels p.source };

    fn start(&self, id: u64) -> u64 {
        if id == self.source { 0 } else { INF }
    }

    fn update(&self, scope: &mut Scope<'_>) -> Woken {
        let old = scope.centre();
        let new = least_level(scope);
        if new == old {
            return Woken::Nobody;
        }
        *scope.centre_mut() = new;
        Woken::Ahead
    }
}

/// The least of the vertex's own level and one more than the level of each in-neighbour that was
/// reached.
fn least_level(scope: &Scope<'_>) -> u64
    ensures { let offered = map (λ near.
        near.number + 1) (filter comes_reached (nears scope.now)) in
        result ≡ least scope.now.centre.now offered }
{
    let mut level = scope.centre();
    for i in 0..scope.degree() {
        level = lowered(level, scope.near(i), scope.direction(i).leads_into());
    }
    level
}

/// The level, or one more than that of a neighbour which was reached and from which an edge comes,
/// where that is less.
fn lowered(level: u64, neighbour: u64, comes: bool) -> u64
    ensures { result
        ≡ (if comes && nat_lt neighbour INF then min level (neighbour + 1) else level) }
{
    if comes && neighbour < INF {
        level.min(neighbour + 1)
    } else {
        level
    }
}
