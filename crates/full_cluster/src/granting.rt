//! A machine grants a lock to the scope that waits for it first.
ghost use Rattle.std.specs.Prelude.{◌≡◌, ℕ, suc, ◌<◌, true, Some, None, length, map, slice_get, vec_len, IfErr, OnOk, OnErr, Err, IsErrOf};
ghost use Rattle.std.specs.Vec.{vec_capacity};
ghost use Rattle.graph_core.specs.DataGraph.{size};
ghost use Rattle.cluster_laws.specs.cluster_core.Settings.{Setting};
ghost use Rattle.full_laws.specs.FullActions.{MayGrantFull};
ghost use Rattle.full_laws.specs.FullEffects.{gathers, granted_full, locks_full, passes_full};
ghost use Rattle.full_laws.specs.FullParts.{FullPart, FullStand};
ghost use Rattle.full_laws.specs.Items.{AVertex};
ghost use Rattle.full_cluster.specs.FullMachines.{stood_up, AreStandsWithin, AskForIt, IsMachineOf, IsStandOf, IsSameMachine, IsWithinAfter};
ghost use Rattle.full_cluster.specs.Given.{IsDividedAs};
ghost use Rattle.full_cluster.specs.ScopeMaps.{value_of, AreOnce};
ghost use Rattle.full_cluster.specs.WholeLocks.{IsNextOf};

use crate::{Division, FullMachine, ScopeStand};
use gl_base::{Refused, ScopeId, Vertex};

impl FullMachine {
    /// The first scope that waits for the lock of x holds it, if nobody held it. It gathers the
    /// number of x, and waits for its next lock or leaves. Where whoever waits first for the lock
    /// stands before it, `NotNow` comes exactly where the machine doesn't own x, nobody waits or
    /// somebody holds. After an error all is as it was.
    pub fn grant(&mut self, division: &Division<'_>, x: Vertex) -> Result<(), Refused>
        requires locks { length self.old.locks.locks.items ≡ size division.now.graph.now }
        requires numbers { length self.old.kept.numbers.items ≡ size division.now.graph.now }
        requires within { AreStandsWithin self.old }
        requires once { AreOnce self.old.stands.entries.items }
        requires ready_once { AreOnce self.old.ready.entries.items }
        ensures still { IsSameMachine self.old self.new }
        ensures granted { (st : Setting) (part : FullPart) → IsDividedAs st division.now →
            IsMachineOf st self.old part → AskForIt part x.0 →
            OnOk result (MayGrantFull st self.old.me.0 x.0 part ×
            IsMachineOf st self.new (granted_full st self.old.me.0 x.0 part)) }
        ensures not_now { (st : Setting) (part : FullPart) → IsDividedAs st division.now →
            IsMachineOf st self.old part → AskForIt part x.0 →
            IsErrOf result Refused.NotNow → MayGrantFull st self.old.me.0 x.0 part → ⊥ }
        ensures no_memory { (st : Setting) (part : FullPart) → IsDividedAs st division.now →
            IsMachineOf st self.old part → AskForIt part x.0 →
            IsErrOf result Refused.NoMemory → MayGrantFull st self.old.me.0 x.0 part }
        ensures unchanged { (st : Setting) (part : FullPart) → IsMachineOf st self.old part →
            OnErr result (IsMachineOf st self.new part) }
    {
        if x.0 >= division.graph.n() || division.owner_of(x).0 != self.me.0 {
            return Err(Refused::NotNow);
        }
        let Some(scope) = self.locks.first(x) else {
            return Err(Refused::NotNow);
        };
        let Some(stand) = self.stands.take(scope) else {
            return Err(Refused::NotNow);
        };
        self.grant_to(x, scope, stand)
    }

    /// The scope that stood so holds the lock of x, gathers the number of x and goes on. After an
    /// error it stands as before.
    fn grant_to(&mut self, x: Vertex, scope: ScopeId, mut stand: ScopeStand) -> Result<(), Refused>
        requires inside { x.0 < length self.old.locks.locks.items }
        requires number { x.0 < length self.old.kept.numbers.items }
        requires within { IsWithinAfter self.old scope stand }
        requires room { vec_len self.old.stands.entries < vec_capacity self.old.stands.entries }
        requires once { AreOnce self.old.stands.entries.items }
        requires none { value_of self.old.stands.entries.items scope ≡ None }
        requires ready_once { AreOnce self.old.ready.entries.items }
        ensures still { IsSameMachine self.old self.new }
        ensures granted { (st : Setting) (part : FullPart) (standing : FullStand)
            (next : IsNextOf (part.holds x.0) (part.queue x.0) scope) → x.0 < size st.graph →
            st.owner x.0 ≡ self.old.me.0 → IsMachineOf st self.old (stood_up scope part) →
            IsStandOf st self.old.me.0 stand standing → standing.lock ≡ x.0 →
            OnOk result (IsMachineOf st self.new
            (passes_full st self.old.me.0 scope standing.centre (suc x.0) standing.rest
            (gathers x.0 (part.number (AVertex x.0)) standing.seen)
            (locks_full x.0 scope next.behind part))) }
        ensures refused { IfErr result (λ e. e ≡ Refused.NoMemory) }
        ensures unchanged { (st : Setting) (part : FullPart) (standing : FullStand) →
            IsMachineOf st self.old (stood_up scope part) → part.stand scope ≡ Some standing →
            IsStandOf st self.old.me.0 stand standing → OnErr result (IsMachineOf st self.new part) }
    {
        if stand.seen.reserve(1).is_err() {
            return self.stand_again(scope, stand);
        }
        let next = stand.after();
        let machine = stand.next_machine();
        if self.reserve(scope, next, machine).is_err() {
            return self.stand_again(scope, stand);
        }
        let number = self.kept.numbers[x.0 as usize];
        self.locks.grant(x);
        stand.seen.push_reserved((x, number));
        stand.place += 1;
        self.go_on(scope, stand);
        Ok(())
    }

    /// There is not enough memory: the scope stands here as before.
    fn stand_again(&mut self, scope: ScopeId, stand: ScopeStand) -> Result<(), Refused>
        requires room { vec_len self.old.stands.entries < vec_capacity self.old.stands.entries }
        requires once { AreOnce self.old.stands.entries.items }
        requires none { value_of self.old.stands.entries.items scope ≡ None }
        ensures refused { result ≡ Err Refused.NoMemory }
        ensures still { IsSameMachine self.old self.new }
        ensures again { (st : Setting) (part : FullPart) (standing : FullStand) →
            IsMachineOf st self.old (stood_up scope part) → part.stand scope ≡ Some standing →
            IsStandOf st self.old.me.0 stand standing → IsMachineOf st self.new part }
    {
        self.stands.put(scope, stand);
        Err(Refused::NoMemory)
    }
}
