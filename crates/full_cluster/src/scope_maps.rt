//! Values by scope.
ghost use Rattle.std.specs.Prelude.{◌≡◌, ◌≢◌, ℕ, ◌<◌, true, false, None, Some, [], length, slice_index_or, vec_len, OnOk, IfSome};
ghost use Rattle.std.specs.Vec.{vec_capacity};
ghost use Rattle.gl_base.specs.declared.numbers.Vertex.{Vertex};
ghost use Rattle.gl_base.specs.declared.scopes.ScopeId.{ScopeId};
ghost use Rattle.gl_base.specs.scope_lists.Found.{by_scope, StandsAt};
ghost use Rattle.gl_base.specs.scope_lists.Scopes.{set_for};
ghost use Rattle.full_cluster.specs.ScopeMaps.{entry_scope, value_of, AreOnce, HasVertexAt};

use gl_base::scope_lists::is_scope;
use gl_base::{NoMemory, ScopeId, Vertex};
use std::alloc::Global;

/// Values of scopes, each scope with one at most.
#[derive(Drop)]
pub struct ScopeMap<T> {
    entries: Vec<(ScopeId, T)>,
}

impl<T> ScopeMap<T> {
    /// No scope has a value.
    pub fn new(alloc: Global) -> ScopeMap<T>
        ensures { result.entries.items ≡ [] }
    {
        ScopeMap {
            entries: Vec::new(alloc),
        }
    }

    /// Makes room for one more value. No value changes, whatever the answer.
    pub fn reserve(&mut self) -> Result<(), NoMemory>
        ensures room { OnOk result (vec_len self.new.entries < vec_capacity self.new.entries) }
        ensures room_kept { vec_len self.old.entries < vec_capacity self.old.entries →
            vec_len self.new.entries < vec_capacity self.new.entries }
        ensures same { self.new.entries.items ≡ self.old.entries.items }
    {
        self.entries.reserve(1)?;
        Ok(())
    }

    /// The scope, which has no value, gets this one.
    pub fn put(&mut self, scope: ScopeId, value: T)
        requires room { vec_len self.old.entries < vec_capacity self.old.entries }
        requires none { value_of self.old.entries.items scope ≡ None }
        requires once { AreOnce self.old.entries.items }
        ensures values { (t : ScopeId) → value_of self.new.entries.items t
            ≡ set_for (value_of self.old.entries.items) scope (Some value) t }
        ensures once { AreOnce self.new.entries.items }
    {
        self.entries.push_reserved((scope, value));
    }

    /// The value of the scope, if it has one.
    pub fn get(&self, scope: ScopeId) -> Option<&T>
        requires { AreOnce self.now.entries.items }
        ensures some { IfSome result (λ value.
            value_of self.now.entries.items scope ≡ Some value.now) }
        ensures none { result ≡ None → value_of self.now.entries.items scope ≡ None }
    {
        let place = place_of(&self.entries, scope)?;
        Some(&self.entries[place].1)
    }

    /// Takes the value of the scope out, if it has one. It leaves room for another.
    pub fn take(&mut self, scope: ScopeId) -> Option<T>
        requires { AreOnce self.old.entries.items }
        ensures value { result ≡ value_of self.old.entries.items scope }
        ensures values { (t : ScopeId) → value_of self.new.entries.items t
            ≡ set_for (value_of self.old.entries.items) scope None t }
        ensures unchanged { result ≡ None → self.new.entries.items ≡ self.old.entries.items }
        ensures once { AreOnce self.new.entries.items }
        ensures room { IfSome result (λ value.
            vec_len self.new.entries < vec_capacity self.new.entries) }
        ensures room_kept { vec_len self.old.entries < vec_capacity self.old.entries →
            vec_len self.new.entries < vec_capacity self.new.entries }
    {
        let place = place_of(&self.entries, scope)?;
        let (_, value) = self.entries.swap_remove(place);
        Some(value)
    }
}

impl ScopeMap<Vertex> {
    /// Whether a scope has this vertex.
    pub fn has(&self, v: Vertex) -> bool
        requires { AreOnce self.now.entries.items }
        ensures yes { result ≡ true →
            (s : ScopeId) × (value_of self.now.entries.items s ≡ Some v) }
        ensures not { result ≡ false → (s : ScopeId) →
            value_of self.now.entries.items s ≡ Some v → ⊥ }
    {
        place_of_vertex(&self.entries, v).is_some()
    }
}

/// Where an entry has the vertex, if one does.
fn place_of_vertex(entries: &[(ScopeId, Vertex)], v: Vertex) -> Option<usize>
    ensures there { IfSome result (HasVertexAt entries.now v) }
    ensures none { result ≡ None → (k : ℕ) (d : ScopeId × Vertex) → k < length entries.now →
        (slice_index_or entries.now k d).1.0 ≢ v.0 }
{
    for (place, entry) in entries.iter().enumerate() {
        if entry.1.0 == v.0 {
            return Some(place);
        }
    }
    None
}

/// Where the scope stands among these, if it does.
fn place_of<T>(entries: &[(ScopeId, T)], scope: ScopeId) -> Option<usize>
    ensures there { IfSome result (StandsAt entry_scope entries.now scope) }
    ensures none { result ≡ None → by_scope entry_scope entries.now scope ≡ None }
{
    for (place, entry) in entries.iter().enumerate() {
        if is_scope(entry.0, scope) {
            return Some(place);
        }
    }
    None
}
