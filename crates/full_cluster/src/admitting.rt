//! A machine admits a scope of one of its vertices.
ghost use Rattle.std.specs.Prelude.{◌≡◌, ◌+◌, ◌<◌, ◌^◌, ◌∷◌, true, false, None, [], length, map, vec_len, All, IfSome, OnOk, OnErr, IsErrOf};
ghost use Rattle.std.specs.Vec.{vec_capacity};
ghost use Rattle.graph_core.specs.DataGraph.{size};
ghost use Rattle.cluster_laws.specs.cluster_core.Settings.{Setting};
ghost use Rattle.full_laws.specs.FullActions.{MayAdmitFull};
ghost use Rattle.full_laws.specs.FullEffects.{admitted_full, flies_full, no_numbers, passes_full, posts_full};
ghost use Rattle.full_laws.specs.FullMessages.{Gather};
ghost use Rattle.full_laws.specs.FullParts.{FullPart};
ghost use Rattle.full_cluster.specs.FullMachines.{next_scope, AreScopesOnce, HasTerms, IsFirstBelow, IsFirstMessage, IsMachineOf, IsNextNew, IsOneOf, IsSameMachine, IsSizedFor};
ghost use Rattle.full_cluster.specs.Given.{IsDividedAs};
ghost use Rattle.full_cluster.specs.ScopeMaps.{value_of, AreOnce};

use crate::{Division, FullMachine, FullMessage};
use gl_base::{MachineNo, NoMemory, Refused, ScopeId, Vertex};
use std::alloc::Global;

/// How many machines there are, and how many scopes of each may be in flight.
#[derive(Clone, Copy)]
pub struct FullTerms {
    pub machines: u16,
    pub pipeline: u64,
}

impl FullMachine {
    /// A new scope of v is in flight, and sets out for its locks. `NotNow` comes exactly where the
    /// machine doesn't own v, v is no task or has a scope in flight, or as many scopes are in flight
    /// as may be. There is no memory for it also where no serial is left. After an error all is as
    /// it was.
    pub fn admit(
        &mut self,
        alloc: Global,
        division: &Division<'_>,
        terms: FullTerms,
        v: Vertex,
    ) -> Result<(), Refused>
        requires sized { IsSizedFor self.old division.now.graph.now }
        requires one { IsOneOf self.old terms.machines }
        requires low { All (λ m. m.0 < terms.machines) division.now.owner.now }
        requires once { AreScopesOnce self.old }
        requires new { IsNextNew self.old }
        ensures still { IsSameMachine self.old self.new }
        ensures admitted { (st : Setting) (part : FullPart) → IsDividedAs st division.now →
            HasTerms st terms → IsMachineOf st self.old part →
            OnOk result (MayAdmitFull st self.old.me.0 v.0 part ×
            IsMachineOf st self.new (admitted_full st self.old.me.0 v.0 part)) }
        ensures not_now { (st : Setting) (part : FullPart) → IsDividedAs st division.now →
            HasTerms st terms → IsMachineOf st self.old part →
            IsErrOf result Refused.NotNow → MayAdmitFull st self.old.me.0 v.0 part → ⊥ }
        ensures no_memory { (st : Setting) (part : FullPart) → IsDividedAs st division.now →
            HasTerms st terms → IsMachineOf st self.old part →
            IsErrOf result Refused.NoMemory → MayAdmitFull st self.old.me.0 v.0 part }
        ensures unchanged { (st : Setting) (part : FullPart) → IsMachineOf st self.old part →
            OnErr result (IsMachineOf st self.new part) }
    {
        if !self.may_admit(division, terms.pipeline, v) {
            return Err(Refused::NotNow);
        }
        if self.serial == u64::MAX {
            return Err(Refused::NoMemory);
        }
        let mut rest = division.machine_order(alloc, v, terms.machines)?;
        let Some(first) = take_first(&mut rest) else {
            return Err(Refused::NoMemory);
        };
        if first.0 == self.me.0 {
            self.admit_here(alloc, division, v, rest)?;
        } else {
            self.admit_away(alloc, first, v, rest)?;
        }
        Ok(())
    }

    /// Whether a scope of v may be admitted, where so many may be in flight.
    fn may_admit(&self, division: &Division<'_>, pipeline: u64, v: Vertex) -> bool
        requires sized { IsSizedFor self.now division.now.graph.now }
        requires once { AreOnce self.now.flights.entries.items }
        ensures inside { result ≡ true → v.0 < size division.now.graph.now }
        ensures room { result ≡ true → self.now.flying < pipeline }
        ensures yes { (st : Setting) (part : FullPart) → IsDividedAs st division.now →
            st.pipeline ≡ pipeline → IsMachineOf st self.now part → result ≡ true →
            MayAdmitFull st self.now.me.0 v.0 part }
        ensures not { (st : Setting) (part : FullPart) → IsDividedAs st division.now →
            st.pipeline ≡ pipeline → IsMachineOf st self.now part → result ≡ false →
            MayAdmitFull st self.now.me.0 v.0 part → ⊥ }
    {
        if v.0 >= division.graph.n() || division.owner_of(v).0 != self.me.0 {
            return false;
        }
        if !self.kept.tasks[v.0 as usize] || self.flights.has(v) {
            return false;
        }
        self.flying < pipeline
    }

    /// The next scope, of v, is in flight, and sets out for its locks here. After it these machines
    /// are to come.
    fn admit_here(
        &mut self,
        alloc: Global,
        division: &Division<'_>,
        v: Vertex,
        rest: Vec<MachineNo>,
    ) -> Result<(), NoMemory>
        requires sized { IsSizedFor self.old division.now.graph.now }
        requires vertex { v.0 < size division.now.graph.now }
        requires rest { IsFirstBelow rest.items (length self.old.out.queues.items) }
        requires me { self.old.me.0 < length self.old.out.queues.items }
        requires once { AreScopesOnce self.old }
        requires new { IsNextNew self.old }
        requires serial { self.old.serial + 1 < 2 ^ 64 }
        requires flying { self.old.flying + 1 < 2 ^ 64 }
        ensures still { IsSameMachine self.old self.new }
        ensures admitted { (st : Setting) (part : FullPart) → IsDividedAs st division.now →
            IsMachineOf st self.old part → let s = next_scope self.old in
            OnOk result (IsMachineOf st self.new (passes_full st self.old.me.0 s v.0 0
            (map (λ b. b.0) rest.items) no_numbers (flies_full s v.0 part))) }
        ensures unchanged { (st : Setting) (part : FullPart) → IsMachineOf st self.old part →
            OnErr result (IsMachineOf st self.new part) }
    {
        let message = self.first_message(alloc, v, rest);
        let part = self.prepare(alloc, division, &message)?;
        self.flights.reserve()?;
        self.fly(v);
        self.receive(message, part);
        Ok(())
    }

    /// The next scope, of v, is in flight, and sets out for its locks at another machine. After it
    /// these machines are to come.
    fn admit_away(
        &mut self,
        alloc: Global,
        first: MachineNo,
        v: Vertex,
        rest: Vec<MachineNo>,
    ) -> Result<(), NoMemory>
        requires first { first.0 < length self.old.out.queues.items }
        requires once { AreScopesOnce self.old }
        requires new { IsNextNew self.old }
        requires serial { self.old.serial + 1 < 2 ^ 64 }
        requires flying { self.old.flying + 1 < 2 ^ 64 }
        ensures still { IsSameMachine self.old self.new }
        ensures admitted { (st : Setting) (part : FullPart) →
            IsMachineOf st self.old part → let s = next_scope self.old in
            OnOk result (IsMachineOf st self.new (posts_full first.0
            (Gather s v.0 (map (λ b. b.0) rest.items) no_numbers) (flies_full s v.0 part))) }
        ensures unchanged { (st : Setting) (part : FullPart) → IsMachineOf st self.old part →
            OnErr result (IsMachineOf st self.new part) }
    {
        self.out.reserve(first)?;
        self.flights.reserve()?;
        let message = self.first_message(alloc, v, rest);
        self.fly(v);
        self.out.put(first, message);
        Ok(())
    }

    /// With this message the next scope, of v, sets out. After the first machine these are to come.
    fn first_message(&self, alloc: Global, v: Vertex, rest: Vec<MachineNo>) -> FullMessage
        ensures { IsFirstMessage result (next_scope self.now) v rest }
    {
        FullMessage::Gather {
            scope: ScopeId {
                home: self.me,
                serial: self.serial,
            },
            centre: v,
            rest,
            seen: Vec::new(alloc),
        }
    }

    /// The next scope, of v, is in flight.
    fn fly(&mut self, v: Vertex)
        requires room { vec_len self.old.flights.entries < vec_capacity self.old.flights.entries }
        requires once { AreOnce self.old.flights.entries.items }
        requires none { value_of self.old.flights.entries.items (next_scope self.old) ≡ None }
        requires serial { self.old.serial + 1 < 2 ^ 64 }
        requires flying { self.old.flying + 1 < 2 ^ 64 }
        ensures same { self.new ≡ record self.old {
          flights = self.new.flights;
          serial = self.new.serial;
          flying = self.new.flying;
        } }
        ensures flies { (st : Setting) (part : FullPart) → IsMachineOf st self.old part →
            IsMachineOf st self.new (flies_full (next_scope self.old) v.0 part) }
    {
        let scope = ScopeId {
            home: self.me,
            serial: self.serial,
        };
        self.flights.put(scope, v);
        self.serial += 1;
        self.flying += 1;
    }
}

/// Takes the first of these machines; `None` exactly where there is none.
fn take_first(list: &mut Vec<MachineNo>) -> Option<MachineNo>
    ensures some { IfSome result (λ first. list.old.items ≡ first ∷ list.new.items) }
    ensures none { result ≡ None → list.old.items ≡ [] }
{
    if list.is_empty() {
        return None;
    }
    Some(list.remove(0))
}
