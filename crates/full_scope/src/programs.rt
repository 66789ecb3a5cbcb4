//! Programs whose updates may write their neighbours too.
ghost use Rattle.std.specs.Prelude.{◌≡◌};
ghost use Rattle.full_scope.specs.FullLinks.{AreWritten};
ghost use Rattle.full_scope.specs.FullScopes.{surroundings};
ghost use Rattle.full_scope.specs.FullUpdates.{FullUpdate};

use crate::FullScope;
use update_api::Woken;

/// Computes a number for each vertex by updates, each of one vertex, that hold the whole scope of
/// the vertex. What an update does is a function of what its scope lends.
pub trait FullProgram: Copy {
    ghost meaning: { Self → FullUpdate };

    /// Returns the number that the vertex with this identifier starts with.
    fn start(&self, id: u64) -> u64
        ensures { result ≡ (meaning self.now).start id };

    /// Updates a vertex, and returns whom the update wakes. It writes the number of the vertex,
    /// those of its neighbours and those of its edges, and nothing else.
    fn update(&self, scope: &mut FullScope<'_>) -> Woken
        ensures number { scope.new.centre.now ≡ (meaning self.now).number (surroundings scope.old) }
        ensures numbers { let seen = surroundings scope.old in let p = meaning self.now in
            AreWritten (p.near seen) (p.mark seen)
            scope.old.links.now scope.old.numbers.now scope.new.numbers.now }
        ensures woken { result ≡ (meaning self.now).woken (surroundings scope.old) }
        ensures same_id { scope.new.id ≡ scope.old.id }
        ensures same_links { scope.new.links.now ≡ scope.old.links.now }
        ensures same_centre { scope.new.centre.ghost_name ≡ scope.old.centre.ghost_name }
        ensures same_numbers { scope.new.numbers.ghost_name ≡ scope.old.numbers.ghost_name };
}
