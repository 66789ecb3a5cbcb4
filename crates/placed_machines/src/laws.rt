//! A law of how an attempt begins. It is the contract of a function that does nothing.
ghost use Rattle.std.specs.Prelude.{◌<◌, List, ℕ};
ghost use Rattle.gl_base.specs.declared.snapshots.Base.{Base};
ghost use Rattle.graph_core.specs.DataGraph.{DataGraph, IsDataGraph, size};
ghost use Rattle.update_api.specs.Updates.{Update};
ghost use Rattle.placed_machines.specs.Beginning.{AreColoursFor, IsAttemptFrom, IsBaseFor};
ghost use Rattle.placed_machines.specs.declared.placing.SavingRun.{SavingRun};

/// For every graph, program, owners, colours that keep neighbours apart, base, and whatever numbers
/// of scopes machines have admitted, there is an attempt of the law that begins so, with these
/// tickets and so many bytes in the store.
pub fn attempts_can_begin()
    ensures { (g : DataGraph) (program : Update) (owner : ℕ →
        ℕ) (colours : List ℕ) (run : SavingRun) (base : Base) (serials : List ℕ)
        (next left store_end : ℕ) →
        IsDataGraph g → ((v : ℕ) → v < size g → owner v < run.machines) →
        AreColoursFor g run.engine colours → IsBaseFor g base →
        IsAttemptFrom g program owner colours run base serials next left store_end }
{}
