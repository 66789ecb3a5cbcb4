//! All scopes of a machine.
ghost use Rattle.std.specs.Prelude.{◌≡◌, ◌+◌, ◌<◌, ◌↔◌, IsTrue, true, false, Option, Some, None, is_some, IfOk, IfSome, OnErr, IsOk, IsErrOf};
ghost use Rattle.gl_base.specs.scope_lists.Found.{by_scope, AreOfTwoScopes, StandsAt};
ghost use Rattle.scope_locks.specs.scope_pipe.Entered.{EnteredView, entered_scope, next_of, moved_on, comes};
ghost use Rattle.scope_locks.specs.scope_pipe.Pipes.{PipeView, flight_scope, flight_at, is_ready, flight_count, come, entered_at, Flies, next_id, HasAdmitted, HasReadied, HasFinished, without_flight, HasCome, IsEmpty};
ghost use Rattle.std.specs.List.{AllPairs, list_any, swap_remove};
ghost use Rattle.std.specs.Prelude.{ℕ, ◌==◌, length, slice_index_or, vec_len};
ghost use Rattle.std.specs.Vec.{vec_capacity};

use crate::scope_pipe::entered::Entered;
use crate::scope_pipe::flights::Flight;
use crate::scope_pipe::hints::Hints;
use crate::scope_pipe::next::Next;
use gl_base::scope_lists::is_scope;
use gl_base::{MachineNo, NoMemory, ScopeId, Vertex};
use std::alloc::Global;
use std::marker::Model;

/// As many scopes may have come to a machine at once.
const MAX_ENTERED: usize = 4096;

/// The scopes that a machine admitted and that are in flight, and those that have come to it for
/// locks. A scope is found where a hint leads, and by a search only where another scope has taken
/// its hint.
#[derive(Drop)]
pub struct ScopePipe {
    home: MachineNo,
    serial: u64,
    width: u16,
    waiting: Vec<Flight>,
    ready: Vec<Flight>,
    flight_hints: Hints,
    entered: Vec<Entered>,
    entered_hints: Hints,
}

/// Why a scope was not admitted.
#[derive(Clone, Copy, PartialEq, Eq)]
pub enum PipeFault {
    /// The vertex has a scope in flight.
    InFlight,
    /// As many scopes are in flight as may be.
    Full,
}

/// What a scope that leaves a machine takes along, and the list of vertices that it came with.
#[derive(Drop)]
pub struct Left {
    pub centre: Vertex,
    pub part: Vec<Vertex>,
    pub rest: Vec<MachineNo>,
}

impl Model for ScopePipe {
    ghost use Rattle.scope_locks.specs.scope_pipe.Inner.Kept.{IsPipe};
    ghost use Rattle.scope_locks.specs.scope_pipe.Pipes.{PipeView};

    ghost Value = { PipeView };

    ghost view = { λ p. record {
      home = p.home;
      serial = p.serial;
      width = p.width;
      waiting = p.waiting.items;
      ready = p.ready.items;
      entered = p.entered.items;
    } };

    ghost invariant = { λ p.
        IsPipe p.serial p.width p.waiting.items p.ready.items p.entered.items p.waiting.cap
        p.ready.cap p.entered.cap };
}

impl ScopePipe {
    /// A pipe of machine `home` with no scope, of which `width` may be in flight. The first that is
    /// admitted gets the serial 0.
    pub fn new(alloc: Global, home: MachineNo, width: u16) -> Result<ScopePipe, NoMemory>
        ensures pipe { IfOk result (λ p. (p.home ≡ home) × (p.width ≡ width) × (p.serial ≡ 0)) }
        ensures empty { IfOk result IsEmpty }
    {
        ScopePipe::from_serial(alloc, home, width, 0)
    }

    /// The same, where the first that is admitted gets this serial: so scopes of an earlier attempt
    /// are told apart from new ones.
    pub fn from_serial(
        alloc: Global,
        home: MachineNo,
        width: u16,
        serial: u64,
    ) -> Result<ScopePipe, NoMemory>
        ensures pipe { IfOk result (λ p. (p.home ≡ home) ×
            (p.width ≡ width) × (p.serial ≡ serial)) }
        ensures empty { IfOk result IsEmpty }
    {
        Ok(ScopePipe {
            home,
            serial,
            width,
            waiting: Vec::with_capacity(alloc, width as usize)?,
            ready: Vec::with_capacity(alloc, width as usize)?,
            flight_hints: Hints::new(alloc)?,
            entered: Vec::with_capacity(alloc, MAX_ENTERED)?,
            entered_hints: Hints::new(alloc)?,
        })
    }

    /// Admits a scope of v, which gets the next serial.
    pub fn admit(&mut self, v: Vertex) -> Result<ScopeId, PipeFault>
        requires { self.old.serial < 18446744073709551615 }
        ensures scope { IfOk result (λ s. (s ≡ next_id self.old) × (flight_at self.old s ≡ None)) }
        ensures admitted { IfOk result (λ _. HasAdmitted self.old self.new v) }
        ensures free { IsOk result → (Flies self.old v → ⊥) ×
            (flight_count self.old < self.old.width) }
        ensures in_flight { IsErrOf result PipeFault.InFlight → Flies self.old v }
        ensures full { IsErrOf result PipeFault.Full → (Flies self.old v → ⊥) ×
            (flight_count self.old ≡ self.old.width) }
        ensures unchanged { OnErr result (self.new ≡ self.old) }
        ensures rest { self.new ≡ record self.old {
          serial = self.new.serial;
          waiting = self.new.waiting;
        } }
    {
        if self.flies(v) {
            return Err(PipeFault::InFlight);
        }
        if self.waiting.len() + self.ready.len() == self.width as usize {
            return Err(PipeFault::Full);
        }
        Ok(self.admit_now(v))
    }

    /// The scope that would be admitted next.
    pub fn next_id(&self) -> ScopeId
        ensures { result ≡ next_id self.now }
    {
        ScopeId {
            home: self.home,
            serial: self.serial,
        }
    }

    /// Whether a scope of v is in flight. It looks at each scope that is.
    pub fn flies(&self, v: Vertex) -> bool
        ensures yes { result ≡ true → Flies self.now v }
        ensures not { result ≡ false → Flies self.now v → ⊥ }
    {
        let waits = has_centre(&self.waiting, v);
        let is_ready = has_centre(&self.ready, v);
        waits || is_ready
    }

    /// Admits a scope of v where fewer are in flight than may be. Whether v has one in flight is
    /// not looked at.
    pub fn admit_now(&mut self, v: Vertex) -> ScopeId
        requires serial { self.old.serial < 18446744073709551615 }
        requires room { flight_count self.old < self.old.width }
        ensures scope { result ≡ next_id self.old }
        ensures is_new { flight_at self.old (next_id self.old) ≡ None }
        ensures admitted { HasAdmitted self.old self.new v }
        ensures rest { self.new ≡ record self.old {
          serial = self.new.serial;
          waiting = self.new.waiting;
        } }
    {
        let scope = ScopeId {
            home: self.home,
            serial: self.serial,
        };
        self.flight_hints.note(scope, self.waiting.len());
        self.waiting.push_reserved(Flight { scope, centre: v });
        self.serial += 1;
        scope
    }

    /// The next scope is passed over, as if it had been admitted and were over.
    pub fn pass(&mut self)
        requires { self.old.serial < 18446744073709551615 }
        ensures { self.new ≡ record self.old { serial = self.old.serial + 1 } }
    {
        let next = self.serial + 1;
        self.serial = next;
    }

    /// The scope has come to this machine: `part` are this machine's vertices of it and `rest` the
    /// machines still to come, both ascending.
    pub fn enter(&mut self, scope: ScopeId, centre: Vertex, part: Vec<Vertex>, rest: Vec<MachineNo>)
        requires is_new { entered_at self.old scope ≡ None }
        requires few { come self.old < 4096 }
        ensures entered { HasCome self.old self.new scope
            (Some (comes scope centre part.items rest.items)) }
        ensures come { come self.new ≡ come self.old + 1 }
        ensures rest { self.new ≡ record self.old { entered = self.new.entered } }
    {
        self.entered_hints.note(scope, self.entered.len());
        self.entered.push_reserved(Entered {
            scope,
            centre,
            part,
            place: 0,
            rest,
        });
    }

    /// Whether the scope has come to this machine.
    pub fn has_come(&self, scope: ScopeId) -> bool
        ensures { result ≡ is_some (entered_at self.now scope) }
    {
        find_entered(&self.entered, self.entered_hints.place(scope), scope).is_some()
    }

    /// How many scopes have come.
    pub fn entered_count(&self) -> usize
        ensures { result ≡ come self.now }
    {
        self.entered.len()
    }

    /// The scopes that have come, each once.
    pub fn entered_ones(&self) -> &[Entered]
        ensures ones { result.now ≡ self.now.entered }
        ensures apart { AllPairs (AreOfTwoScopes entered_scope) self.now.entered }
    {
        &self.entered
    }

    /// Whether one more scope may come.
    pub fn has_place(&self) -> bool
        ensures { IsTrue result ↔ (come self.now < 4096) }
    {
        self.entered.len() < MAX_ENTERED
    }

    /// Whether a serial is left for one more scope to be admitted.
    pub fn has_serial(&self) -> bool
        ensures { IsTrue result ↔ (self.now.serial < 18446744073709551615) }
    {
        self.serial < u64::MAX
    }

    /// How many scopes are in flight.
    pub fn flight_count(&self) -> usize
        ensures { result ≡ flight_count self.now }
    {
        self.waiting.len() + self.ready.len()
    }

    /// What the scope wants next here.
    #[inline(always)]
    pub fn look(&self, scope: ScopeId) -> Next
        requires { is_some (entered_at self.now scope) ≡ true }
        ensures { (e : EnteredView) → entered_at self.now scope ≡ Some e → result ≡ next_of e }
    {
        let place = entered_place(&self.entered, self.entered_hints.place(scope), scope);
        self.entered[place].next()
    }

    /// What the scope wants next here once it has asked for the lock that it wants next.
    #[inline(always)]
    pub fn look_ahead(&self, scope: ScopeId) -> Next
        requires { is_some (entered_at self.now scope) ≡ true }
        ensures { (e : EnteredView) → entered_at self.now scope ≡ Some e →
            result ≡ next_of (moved_on e) }
    {
        let place = entered_place(&self.entered, self.entered_hints.place(scope), scope);
        self.entered[place].after_next()
    }

    /// What the scope wants next here. Where that is a lock, the scope has asked for it then.
    #[inline(always)]
    pub fn advance(&mut self, scope: ScopeId) -> Next
        requires { is_some (entered_at self.old scope) ≡ true }
        ensures next { (e : EnteredView) → entered_at self.old scope ≡ Some e → result ≡ next_of e }
        ensures moved { (e : EnteredView) → entered_at self.old scope ≡ Some e →
            HasCome self.old self.new scope (Some (moved_on e)) }
        ensures come { come self.new ≡ come self.old }
        ensures rest { self.new ≡ record self.old { entered = self.new.entered } }
    {
        let place = entered_place(&self.entered, self.entered_hints.place(scope), scope);
        self.entered[place].advance()
    }

    /// The scope leaves this machine, with the machines still to come.
    pub fn leave(&mut self, scope: ScopeId) -> Left
        requires { is_some (entered_at self.old scope) ≡ true }
        ensures centre { (e : EnteredView) → entered_at self.old scope ≡ Some e →
            result.centre ≡ e.centre }
        ensures part { (e : EnteredView) → entered_at self.old scope ≡ Some e →
            result.part.items ≡ e.part }
        ensures machines { (e : EnteredView) → entered_at self.old scope ≡ Some e →
            result.rest.items ≡ e.rest }
        ensures gone { HasCome self.old self.new scope None }
        ensures come { come self.new + 1 ≡ come self.old }
        ensures rest { self.new ≡ record self.old { entered = self.new.entered } }
    {
        let place = entered_place(&self.entered, self.entered_hints.place(scope), scope);
        let Entered {
            scope: _,
            centre,
            part,
            place: _,
            rest,
        } = take_entered(&mut self.entered, &mut self.entered_hints, place);
        Left { centre, part, rest }
    }

    /// The scope, which is in flight, has all its locks.
    pub fn ready(&mut self, scope: ScopeId)
        requires flies { is_some (flight_at self.old scope) ≡ true }
        requires waits { is_ready self.old scope ≡ false }
        ensures ready { HasReadied self.old self.new scope }
        ensures rest { self.new ≡ record self.old {
          waiting = self.new.waiting;
          ready = self.new.ready;
        } }
    {
        let hint = self.flight_hints.place(scope);
        if let Some(place) = flight_place(&self.waiting, hint, scope) {
            let flight = take_flight(&mut self.waiting, &mut self.flight_hints, place);
            self.flight_hints.note(scope, self.ready.len());
            self.ready.push_reserved(flight);
        }
    }

    /// The scopes that are ready, each with its centre.
    pub fn ready_ones(&self) -> &[Flight]
        ensures { result.now ≡ self.now.ready }
    {
        &self.ready
    }

    /// Whether the scope was admitted here and is in flight, ready or not.
    pub fn is_in_flight(&self, scope: ScopeId) -> bool
        ensures { result ≡ is_some (flight_at self.now scope) }
    {
        let waits = self.is_waiting(scope);
        waits || self.is_ready(scope)
    }

    /// Whether the scope is in flight and not ready.
    fn is_waiting(&self, scope: ScopeId) -> bool
        ensures { result ≡ is_some (by_scope flight_scope self.now.waiting scope) }
    {
        flight_place(&self.waiting, self.flight_hints.place(scope), scope).is_some()
    }

    /// Whether the scope is in flight and ready.
    pub fn is_ready(&self, scope: ScopeId) -> bool
        ensures { result ≡ is_ready self.now scope }
    {
        flight_place(&self.ready, self.flight_hints.place(scope), scope).is_some()
    }

    /// The centre of a scope in flight.
    pub fn centre(&self, scope: ScopeId) -> Vertex
        requires { is_some (flight_at self.now scope) ≡ true }
        ensures { flight_at self.now scope ≡ Some result }
    {
        let hint = self.flight_hints.place(scope);
        match flight_place(&self.waiting, hint, scope) {
            Some(place) => self.waiting[place].centre,
            None => self.ready[ready_place(&self.ready, hint, scope)].centre,
        }
    }

    /// The scope is in flight no more.
    pub fn finish(&mut self, scope: ScopeId)
        requires { is_some (flight_at self.old scope) ≡ true }
        ensures finished { HasFinished self.old self.new scope }
        ensures exact { self.new ≡
            record self.old {
              waiting = without_flight scope self.old.waiting;
              ready = without_flight scope self.old.ready;
            } }
        ensures rest { self.new ≡ record self.old {
          waiting = self.new.waiting;
          ready = self.new.ready;
        } }
    {
        let hint = self.flight_hints.place(scope);
        match flight_place(&self.waiting, hint, scope) {
            Some(place) => {
                let _ = take_flight(&mut self.waiting, &mut self.flight_hints, place);
            }
            None => {
                let place = ready_place(&self.ready, hint, scope);
                let _ = take_flight(&mut self.ready, &mut self.flight_hints, place);
            }
        }
    }

    /// No scope is in flight any more, and none has come, as after `new`; serials go on. It takes
    /// time for each scope.
    pub fn reset(&mut self)
        ensures empty { IsEmpty self.new }
        ensures pipe { (self.new.home ≡ self.old.home) × (self.new.width ≡ self.old.width) ×
            (self.new.serial ≡ self.old.serial) }
    {
        self.waiting.clear();
        self.ready.clear();
        self.entered.clear();
    }
}

/// Whether a scope of this centre is among these.
fn has_centre(flights: &[Flight], v: Vertex) -> bool
    ensures { result ≡ list_any (λ f. f.centre.0 == v.0) flights.now }
{
    flights.iter().any(|flight| flight.centre.0 == v.0)
}

/// The place of the scope among these, where it stands: at the hint, or anywhere.
fn flight_place(flights: &[Flight], hint: usize, scope: ScopeId) -> Option<usize>
    ensures there { IfSome result (StandsAt flight_scope flights.now scope) }
    ensures none { result ≡ None → by_scope flight_scope flights.now scope ≡ None }
{
    if hint < flights.len() && is_scope(flights[hint].scope, scope) {
        return Some(hint);
    }
    for (place, flight) in flights.iter().enumerate() {
        if is_scope(flight.scope, scope) {
            return Some(place);
        }
    }
    None
}

/// The place of a scope that stands among these.
fn ready_place(flights: &[Flight], hint: usize, scope: ScopeId) -> usize
    requires { is_some (by_scope flight_scope flights.now scope) ≡ true }
    ensures { StandsAt flight_scope flights.now scope result }
{
    match flight_place(flights, hint, scope) {
        Some(place) => place,
        None => unreachable!(),
    }
}

/// Takes a flight out, and puts the last one in its place.
fn take_flight(flights: &mut Vec<Flight>, hints: &mut Hints, place: usize) -> Flight
    requires { place < vec_len flights.old }
    ensures value { result ≡ slice_index_or flights.old.items place result }
    ensures items { flights.new.items ≡ swap_remove flights.old.items place result }
    ensures room { vec_capacity flights.new ≡ vec_capacity flights.old }
{
    let flight = flights.swap_remove(place);
    if let Some(moved) = flights.get(place) {
        hints.note(moved.scope, place);
    }
    flight
}

/// Takes a scope that has come out, and puts the last one in its place.
fn take_entered(entered: &mut Vec<Entered>, hints: &mut Hints, place: usize) -> Entered
    requires { place < vec_len entered.old }
    ensures value { result ≡ slice_index_or entered.old.items place result }
    ensures items { entered.new.items ≡ swap_remove entered.old.items place result }
    ensures room { vec_capacity entered.new ≡ vec_capacity entered.old }
{
    let one = entered.swap_remove(place);
    if let Some(moved) = entered.get(place) {
        hints.note(moved.scope(), place);
    }
    one
}

/// The place of the scope among those that have come, where it has: at the hint, or anywhere.
#[inline(always)]
fn find_entered(entered: &[Entered], hint: usize, scope: ScopeId) -> Option<usize>
    ensures there { IfSome result (StandsAt entered_scope entered.now scope) }
    ensures none { result ≡ None → by_scope entered_scope entered.now scope ≡ None }
{
    if hint < entered.len() && is_scope(entered[hint].scope(), scope) {
        return Some(hint);
    }
    for (place, one) in entered.iter().enumerate() {
        if is_scope(one.scope(), scope) {
            return Some(place);
        }
    }
    None
}

/// The place of a scope that has come.
#[inline(always)]
fn entered_place(entered: &[Entered], hint: usize, scope: ScopeId) -> usize
    requires { is_some (by_scope entered_scope entered.now scope) ≡ true }
    ensures { StandsAt entered_scope entered.now scope result }
{
    match find_entered(entered, hint, scope) {
        Some(place) => place,
        None => unreachable!(),
    }
}
