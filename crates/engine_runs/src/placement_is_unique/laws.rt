//! Laws of placements and of owners. Each is the contract of a function that does nothing.
ghost use Rattle.std.specs.Prelude.{List, ℕ, ◌<◌, ◌≡◌, ◌≤◌};
ghost use Rattle.graph_atoms.specs.declared.atom_gather.cuts.Cut.{Cut};
ghost use Rattle.cluster_laws.specs.cluster_runs.Attempts.{Shared};
ghost use Rattle.graph_core.specs.DataGraph.{DataGraph, IsDataGraph, size};
ghost use Rattle.placement.specs.plans.Plays.{IsPlacement};
ghost use Rattle.recovery.specs.GoodStores.{IsGoodStore};
ghost use Rattle.store.specs.declared.store_format.header.Header.{Header};

/// A graph that is cut so into atoms and placed on so many machines is placed in one way: two
/// owners of its vertices agree.
pub fn placements_are_one()
    ensures { (g : DataGraph) (cut : Cut) (machines : ℕ) (owner other : ℕ → ℕ) →
        IsDataGraph g → 1 ≤ machines →
        IsPlacement g cut machines owner → IsPlacement g cut machines other → (v : ℕ) →
        v < size g → owner v ≡ other v }
{}

/// Each graph, however it is cut into atoms, can be placed on one machine or more: so it is placed
/// in just one way.
pub fn graphs_are_placed()
    ensures { (g : DataGraph) (cut : Cut) (machines : ℕ) → 1 ≤ machines →
        (owner : ℕ → ℕ) × IsPlacement g cut machines owner }
{}

/// A store that is good by one owner of the vertices is good by any that agrees with it on the
/// graph, whatever failures a job orders.
pub fn stores_stay_good_by_other_owners()
    ensures { (shared same : Shared) (header : Header) (bodies : List (List ℕ)) →
        IsDataGraph shared.graph →
        shared.graph ≡ same.graph → shared.program ≡ same.program →
        ((v : ℕ) → v < size shared.graph → shared.owner v ≡ same.owner v) →
        IsGoodStore shared header bodies → IsGoodStore same header bodies }
{}
