//! Data of ghosts.
ghost use Rattle.std.specs.Prelude.{◌≡◌, ℕ, ◌+◌, ◌<◌, ◌≤◌, ◌==◌, true, Some, is_some, length, map, if◌then◌else◌, IfOk};
ghost use Rattle.std.specs.List.{All, list_any};
ghost use Rattle.gl_base.specs.declared.scopes.Datum.{Datum};
ghost use Rattle.scope_locks.specs.ghost_cache.Caches.{ghost_datum, newest};

use gl_base::vertex_places::Places;
use gl_base::{Datum, GhostLine, NoMemory, Vertex};
use std::alloc::Global;
use std::marker::Model;

/// The datum of each ghost: a vertex of another machine of which a copy is kept here. Contracts see
/// it by the vertex's number.
#[derive(Drop)]
pub struct GhostCache {
    places: Places,
    kept: Vec<Datum>,
}

impl Model for GhostCache {
    ghost use Rattle.std.specs.Prelude.{length};
    ghost use Rattle.scope_locks.specs.ghost_cache.Caches.{CacheView, IsCache};

    ghost Value = { CacheView };

    ghost view = { λ c. record { places = c.places; kept = c.kept.items } };

    ghost invariant = { λ c. IsCache c.places (length c.kept.items) };
}

impl GhostCache {
    /// Data of these ghosts, whose numbers are below `count`: number, version and mark are 0.
    pub fn new(alloc: Global, ghosts: &[GhostLine], count: u32) -> Result<GhostCache, NoMemory>
        requires below { All (λ g. g.vertex.0 < count) ghosts.now }
        requires few { length ghosts.now ≤ count }
        ensures { IfOk result (λ cache. (x : ℕ) →
            is_some (ghost_datum cache x) ≡ list_any (λ g. g.vertex.0 == x) ghosts.now) }
    {
        let vertices = list_vertices(alloc, ghosts)?;
        let nothing = Datum {
            value: 0,
            version: 0,
            mark: 0,
        };
        Ok(GhostCache {
            places: Places::new(alloc, &vertices, count)?,
            kept: Vec::from_elem(alloc, nothing, vertices.len())?,
        })
    }

    /// Whether v is a ghost.
    pub fn has(&self, v: Vertex) -> bool
        ensures { result ≡ is_some (ghost_datum self.now v.0) }
    {
        self.places.place(v).is_some()
    }

    /// The datum of a ghost.
    pub fn get(&self, v: Vertex) -> Datum
        requires { is_some (ghost_datum self.now v.0) ≡ true }
        ensures { ghost_datum self.now v.0 ≡ Some result }
    {
        match self.places.place(v) {
            Some(place) => self.kept[place],
            None => unreachable!(),
        }
    }

    /// Keeps this datum of a ghost, whatever its version.
    pub fn set(&mut self, v: Vertex, datum: Datum)
        requires { is_some (ghost_datum self.old v.0) ≡ true }
        ensures { (x : ℕ) → ghost_datum self.new x ≡ (if x == v.0 then Some datum
            else ghost_datum self.old x) }
    {
        if let Some(place) = self.places.place(v) {
            self.kept[place] = datum;
        }
    }

    /// Takes this datum of a ghost where its version is greater than that of the one that is kept.
    pub fn apply(&mut self, v: Vertex, datum: Datum)
        requires { is_some (ghost_datum self.old v.0) ≡ true }
        ensures { (kept : Datum) → ghost_datum self.old v.0 ≡ Some kept → (x : ℕ) →
            ghost_datum self.new x ≡ (if x == v.0 then Some (newest kept datum)
            else ghost_datum self.old x) }
    {
        if self.get(v).version < datum.version {
            self.set(v, datum);
        }
    }
}

/// The vertices of these lines.
fn list_vertices(alloc: Global, ghosts: &[GhostLine]) -> Result<Vec<Vertex>, NoMemory>
    ensures { IfOk result (λ vertices. vertices.items ≡ map (λ g. g.vertex) ghosts.now) }
{
    let vertices: Vec<Vertex> = ghosts.iter().map(|line| line.vertex).collect(alloc)?;
    Ok(vertices)
}
