//! Laws of how a call ends. Each is the contract of a function that does nothing.
ghost use Rattle.std.specs.Prelude.{List, ℕ};
ghost use Rattle.engine_runs.specs.finish.Ends.{Header, IsEndedRun, IsKnownTrace};
ghost use Rattle.engine_runs.specs.finish.Gathered.{CallOpening, TraceView, ListsOfTrace, RunLists, Setting};
ghost use Rattle.gl_base.specs.declared.entries.Entry.{Entry};

use cluster_step::trace::SavingMachine;

/// The lists of a call whose store has kept up are those of a run with failures, which keeps to the
/// window where snapshots are taken; the store has its snapshots behind those with which it began;
/// and as the course pauses the run ends: it is finished, or spent, or the store is full.
pub fn calls_end_so<M: SavingMachine>()
    ensures { (v : TraceView M) (header : Header) (start bodies : List (List ℕ))
        (lost stored front order : List Entry) (st : Setting) (o : CallOpening)
        (known : IsKnownTrace M.represents v header start bodies lost stored front order st o)
        (lists : RunLists) →
        ListsOfTrace st v.failures o.base o.first known.was.events known.was.cluster lists →
        IsEndedRun M.represents v start bodies st o known.was.events known.was.cluster lists }
{}
