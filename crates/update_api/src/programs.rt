//! Programs: what is computed at each vertex.
ghost use Rattle.std.specs.Prelude.{◌≡◌};
ghost use Rattle.update_api.specs.Marks.{AreMarked};
ghost use Rattle.update_api.specs.Scopes.{numbers, nears};
ghost use Rattle.update_api.specs.Updates.{Update};

use crate::{Scope, Woken};

/// A program computes a number for each vertex by updates, each of one vertex. What an update does
/// is a function of what its scope lends.
pub trait Program: Copy {
    ghost meaning: { Self → Update };

    /// The number that the vertex with this identifier starts with.
    fn start(&self, id: u64) -> u64
        ensures { result ≡ (meaning self.now).start id };

    /// Updates a vertex. It writes the number of the vertex and the numbers of its edges, and
    /// nothing else, and says whom the update wakes.
    fn update(&self, scope: &mut Scope<'_>) -> Woken
        ensures number { scope.new.centre.now
            ≡ (meaning self.now).number scope.old.centre.now (nears scope.old) }
        ensures marks { let mark = (meaning self.now).mark scope.new.centre.now in
            AreMarked mark (numbers scope.old) scope.old.edges.now
            scope.old.links.now scope.new.edges.now }
        ensures woken { result ≡ (meaning self.now).woken
            scope.old.centre.now scope.new.centre.now }
        ensures same_id { scope.new.id ≡ scope.old.id }
        ensures same_links { scope.new.links.now ≡ scope.old.links.now }
        ensures same_low { scope.new.low.now ≡ scope.old.low.now }
        ensures same_centre { scope.new.centre.ghost_name ≡ scope.old.centre.ghost_name }
        ensures same_high { scope.new.high.now ≡ scope.old.high.now }
        ensures same_edges { scope.new.edges.ghost_name ≡ scope.old.edges.ghost_name };
}
