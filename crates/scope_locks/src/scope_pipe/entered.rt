//! A scope that has come to a machine.
ghost use Rattle.std.specs.Prelude.{◌≡◌};
ghost use Rattle.scope_locks.specs.scope_pipe.Entered.{lock_asked, next_of, moved_on};

use crate::scope_pipe::next::{Next, next_at};
use gl_base::{MachineNo, ScopeId, Vertex};
use std::marker::Model;

/// A scope that has come for locks: its centre, this machine's vertices of the scope, how many of
/// their locks it asked for, and the machines still to come.
#[derive(Drop)]
pub struct Entered {
    pub(crate) scope: ScopeId,
    pub(crate) centre: Vertex,
    pub(crate) part: Vec<Vertex>,
    pub(crate) place: usize,
    pub(crate) rest: Vec<MachineNo>,
}

impl Model for Entered {
    ghost use Rattle.scope_locks.specs.scope_pipe.Entered.{EnteredView};

    ghost Value = { EnteredView };

    ghost view = { λ e. record {
      scope = e.scope;
      centre = e.centre;
      part = e.part.items;
      place = e.place;
      rest = e.rest.items;
    } };
}

impl Entered {
    /// Its scope.
    #[inline(always)]
    pub fn scope(&self) -> ScopeId
        ensures { result ≡ self.now.scope }
    {
        self.scope
    }

    /// The lock that it asked for last; `None` exactly where it asked for none.
    pub fn lock(&self) -> Option<Vertex>
        ensures { result ≡ lock_asked self.now }
    {
        match self.place.checked_sub(1) {
            Some(place) => self.part.get(place).copied(),
            None => None,
        }
    }

    /// What it wants next.
    #[inline(always)]
    pub fn next(&self) -> Next
        ensures { result ≡ next_of self.now }
    {
        next_at(self.centre, &self.part, self.place, &self.rest)
    }

    /// What it wants next once it has gone on to what is next.
    #[inline(always)]
    pub fn after_next(&self) -> Next
        ensures { result ≡ next_of (moved_on self.now) }
    {
        let place = if self.place < self.part.len() {
            self.place + 1
        } else {
            self.place
        };
        next_at(self.centre, &self.part, place, &self.rest)
    }

    /// Goes on to what is next, and tells what it was.
    #[inline(always)]
    pub fn advance(&mut self) -> Next
        ensures next { result ≡ next_of self.old }
        ensures moved { self.new ≡ moved_on self.old }
    {
        let next = self.next();
        if self.place < self.part.len() {
            self.place += 1;
        }
        next
    }
}
