//! Where to look for a scope first.
ghost use Rattle.std.specs.Prelude.{◌≡◌, ◌<◌, vec_len};

use gl_base::{NoMemory, ScopeId};
use std::alloc::Global;

const SLOTS: usize = 4096;

/// For each scope a place at which it may stand. A hint may be wrong: who takes one looks whether
/// the scope stands there.
#[derive(Drop)]
pub struct Hints {
    places: Vec<u16>,
    ghost slots: { vec_len places ≡ 4096 },
}

impl Hints {
    pub fn new(alloc: Global) -> Result<Hints, NoMemory> {
        let places = Vec::from_elem(alloc, 0, SLOTS)?;
        Ok(Hints { places })
    }

    /// The place that was noted last for this scope, or for another one that shares its slot.
    #[inline(always)]
    pub fn place(&self, scope: ScopeId) -> usize {
        self.places[slot_of(scope)] as usize
    }

    /// Notes the place of the scope.
    pub fn note(&mut self, scope: ScopeId, place: usize) {
        self.places[slot_of(scope)] = (place & 0xffff) as u16;
    }
}

/// Scopes of one home that were admitted near one another have different slots, as have those of
/// different homes.
#[inline(always)]
fn slot_of(scope: ScopeId) -> usize
    ensures { result < 4096 }
{
    (scope.home.0 as usize & 15) << 8 | (scope.serial & 255) as usize
}
