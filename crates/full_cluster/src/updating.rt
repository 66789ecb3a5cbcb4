//! A machine makes the update of a scope.
ghost use Rattle.std.specs.Prelude.{◌≡◌, ℕ, ◌<◌, ◌+◌, ◌-◌, true, Option, Some, length, vec_len, All, OnOk, OnErr, IsErrOf};
ghost use Rattle.std.specs.Global.{Vec};
ghost use Rattle.std.specs.Vec.{vec_capacity};
ghost use Rattle.gl_base.specs.declared.entries.Entry.TheVariants.{Go};
ghost use Rattle.gl_base.specs.declared.numbers.Vertex.{Vertex};
ghost use Rattle.graph_core.specs.DataGraph.{size};
ghost use Rattle.graph_core.specs.Halves.{halves_of};
ghost use Rattle.seq_run.specs.States.{is_woken};
ghost use Rattle.cluster_laws.specs.cluster_core.Settings.{Setting};
ghost use Rattle.full_scope.specs.FullStates.{after_full, full_wakes};
ghost use Rattle.full_scope.specs.FullUpdates.{FullUpdate};
ghost use Rattle.full_laws.specs.FullActions.{MayUpdateFull};
ghost use Rattle.full_laws.specs.FullEffects.{lent_full, updated_full};
ghost use Rattle.full_laws.specs.FullParts.{FullPart};
ghost use Rattle.full_cluster.specs.FullMachines.{AreScopesOnce, HasTerms, IsMachineOf, IsOneOf, IsSameMachine, IsSizedFor};
ghost use Rattle.full_cluster.specs.Given.{HasGathered, IsDividedAs};
ghost use Rattle.full_cluster.specs.ScopeMaps.{value_of, AreOnce};
ghost use Rattle.full_cluster.specs.Updating.{let_go_full, IsFullyReadyAt, IsReadyIfAny, IsUpdatable};
ghost use Rattle.full_cluster.specs.Inner.Making.{IsMade};

use crate::gifts::{gifts_of, reserve_gifts, send_gifts};
use crate::updates::MadeUpdate;
use crate::{Division, FullMachine, FullTerms};
use full_scope::FullProgram;
use gl_base::{Entry, Refused, ScopeId, Vertex};
use std::alloc::Global;

/// The next ticket, and how many are left.
#[derive(Clone, Copy)]
pub struct FullTickets {
    pub next: u64,
    pub left: u64,
}

impl FullMachine {
    /// The update of a scope of this home is made, under the next ticket: its numbers are written
    /// here, the other machines of the scope are told what they are given, and the scope holds no
    /// lock here any more. `NotNow` comes exactly where the scope isn't in flight or isn't ready,
    /// or no ticket is left. After an error all is as it was.
    pub fn update<P: FullProgram>(
        &mut self,
        alloc: Global,
        division: &Division<'_>,
        terms: FullTerms,
        program: &P,
        scope: ScopeId,
        tickets: FullTickets,
    ) -> Result<(), Refused>
        requires sized { IsSizedFor self.old division.now.graph.now }
        requires one { IsOneOf self.old terms.machines }
        requires low { All (λ m. m.0 < terms.machines) division.now.owner.now }
        requires once { AreScopesOnce self.old }
        requires home { scope.home ≡ self.old.me }
        requires updatable { IsUpdatable self.old scope (size division.now.graph.now) }
        ensures still { IsSameMachine self.old self.new }
        ensures updated { (st : Setting) (part : FullPart) → IsDividedAs st division.now →
            HasTerms st terms → IsMachineOf st self.old part →
            IsReadyIfAny st self.old.me.0 scope part →
            OnOk result ((may : MayUpdateFull scope part tickets.left) ×
            (let entry = Go scope.home (record { 0 = may.vertex }) tickets.next in
            IsMachineOf st self.new (updated_full st (P.meaning program.now) scope.home.0 scope
            may.vertex (lent_full may.seen part) entry part))) }
        ensures not_now { (st : Setting) (part : FullPart) → IsMachineOf st self.old part →
            IsErrOf result Refused.NotNow → MayUpdateFull scope part tickets.left → ⊥ }
        ensures no_memory { (st : Setting) (part : FullPart) → IsMachineOf st self.old part →
            IsErrOf result Refused.NoMemory → MayUpdateFull scope part tickets.left }
        ensures unchanged { (st : Setting) (part : FullPart) → IsDividedAs st division.now →
            IsMachineOf st self.old part →
            OnErr result (IsMachineOf st self.new part) }
    {
        if tickets.left == 0 {
            return Err(Refused::NotNow);
        }
        let Some(v) = self.flights.get(scope) else {
            return Err(Refused::NotNow);
        };
        let Some(seen) = self.ready.get(scope) else {
            return Err(Refused::NotNow);
        };
        let v = *v;
        let made = self.kept.make(alloc, division, program, self.me, v, seen)?;
        let gifts = gifts_of(alloc, division, terms.machines, v, &made)?;
        reserve_gifts(&mut self.out, &gifts)?;
        self.log.reserve(1)?;
        self.end_scope(division, scope, v, &made, tickets.next);
        send_gifts(&mut self.out, scope, gifts);
        Ok(())
    }

    /// Writes what the update of a scope of v made, and logs it under this ticket. The scope isn't in
    /// flight any more, and holds no lock here. It takes no memory.
    fn end_scope(
        &mut self,
        division: &Division<'_>,
        scope: ScopeId,
        v: Vertex,
        made: &MadeUpdate,
        ticket: u64,
    )
        requires vertex { v.0 < size division.now.graph.now }
        requires sized { IsSizedFor self.old division.now.graph.now }
        requires once { AreScopesOnce self.old }
        requires room { vec_len self.old.log < vec_capacity self.old.log }
        requires seen { (seen : Vec (Vertex × ℕ)) →
            value_of self.old.ready.entries.items scope ≡ Some seen →
            All (λ pair. pair.0.0 < size division.now.graph.now) seen.items }
        requires row { let many = length (halves_of division.now.graph.now v.0) in
            length made.now.row.items ≡ many + many }
        ensures me { self.new.me ≡ self.old.me }
        ensures out { self.new.out ≡ self.old.out }
        ensures ended { (st : Setting) (p : FullUpdate) (part : FullPart) (f : ℕ → Option ℕ) →
            IsDividedAs st division.now → IsMachineOf st self.old part →
            IsFullyReadyAt st self.old.me.0 scope part v.0 f → part.ready scope ≡ Some f →
            HasGathered f self.old.kept.numbers.items →
            let lent = lent_full f part in let after = after_full st.graph p lent v.0 in
            IsMade st.graph after v.0 made.now.centre made.now.row.items →
            ((u : ℕ) → full_wakes st.graph p lent v.0 u
            ≡ is_woken made.now.woken (halves_of st.graph v.0) u) →
            let entry = Go self.old.me (record { 0 = v.0 }) ticket in
            IsMachineOf st self.new (record
            (updated_full st p self.old.me.0 scope v.0 lent entry part) { out = part.out }) }
    {
        self.kept.write(division, v, made);
        self.log.push_reserved(Entry::Go {
            machine: self.me,
            vertex: v,
            ticket,
        });
        let _ = self.flights.take(scope);
        self.flying = one_less(self.flying);
        self.let_go(scope);
    }

    /// The scope isn't ready any more, and holds no lock here. It takes no memory.
    fn let_go(&mut self, scope: ScopeId)
        requires once { AreOnce self.old.ready.entries.items }
        requires seen { (seen : Vec (Vertex × ℕ)) →
            value_of self.old.ready.entries.items scope ≡ Some seen →
            All (λ pair. pair.0.0 < length self.old.locks.locks.items) seen.items }
        ensures same { self.new ≡ record self.old {
          ready = self.new.ready;
          locks = self.new.locks;
        } }
        ensures gone { (st : Setting) (part : FullPart) (f : ℕ → Option ℕ) →
            IsMachineOf st self.old part → part.ready scope ≡ Some f → ((x : ℕ) →
            part.holds x scope ≡ true → (n : ℕ) × (f x ≡ Some n)) →
            IsMachineOf st self.new (let_go_full scope part) }
    {
        if let Some(seen) = self.ready.take(scope) {
            self.locks.release(scope, &seen);
        }
    }
}

/// One less than n, and 0 where that is 0.
fn one_less(n: u64) -> u64
    ensures { result ≡ n - 1 }
{
    n.saturating_sub(1)
}
