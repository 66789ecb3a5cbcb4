//! A worked example. It is the contract of a function that does nothing.
ghost use Rattle.std.specs.Prelude.{[], ◌∷◌, ◌≡◌};
ghost use Rattle.gl_base.specs.declared.entries.Entry.TheVariants.{Restart};
ghost use Rattle.call_laws.specs.attempts.EngineCalls.{IsEngineCall, call_order, fired_of, lost_of};
ghost use Rattle.call_laws.specs.attempts.OneFailure.{alone, failing_call, fails_at_two, made_at};
ghost use Rattle.call_laws.specs.attempts.Stores.{snapshots_of};

/// Machine 0 updates both vertices, a snapshot has one of them, and it fails: the other update is
/// lost, a restart comes behind the snapshot, and both vertices are updated again. So what is said
/// of calls isn't empty.
pub fn a_call_with_a_failure()
    ensures premises { IsEngineCall alone failing_call }
    ensures order { call_order failing_call ≡ made_at 1 0 ∷ Restart 2 ∷ made_at
        0 2 ∷ made_at 1 3 ∷ [] }
    ensures lost { lost_of failing_call ≡ made_at 0 1 ∷ [] }
    ensures fired { fired_of alone failing_call ≡ fails_at_two ∷ [] }
    ensures snapshots { snapshots_of failing_call ≡
        (made_at 1 0 ∷ []) ∷ (made_at 1 0 ∷ Restart 2 ∷ made_at 0 2 ∷ made_at 1 3 ∷ []) ∷ [] }
{}
