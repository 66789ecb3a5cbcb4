//! The locks of a machine by place, made as they are needed.
ghost use Rattle.std.specs.Prelude.{◌≡◌, ℕ, ◌<◌, ◌≤◌, ◌++◌, length, replicate, slice_index_or, OnOk, vec_len, vec_capacity};
ghost use Rattle.scope_locks.specs.vertex_locks.Tables.{no_lock};
ghost use Rattle.scope_locks.specs.vertex_locks.Inner.KeptLists.{all_locks, locks_in};

use crate::vertex_locks::locks::Lock;
use gl_base::NoMemory;
use std::alloc::Global;

/// A lock for each of so many places. Those behind the highest place where one was made are not
/// kept: each is like the free one.
#[derive(Drop)]
pub struct LockList {
    pub alloc: Global,
    pub kept: Vec<Lock>,
    pub free: Lock,
    pub many: usize,
}

impl LockList {
    /// So many locks that nobody claims, and of which none is kept.
    pub fn free(alloc: Global, many: usize) -> LockList
        ensures all { locks_in result ≡ replicate many no_lock }
        ensures few { length result.kept.items ≤ result.many }
        ensures free { result.free ≡ no_lock }
        ensures many { result.many ≡ many }
    {
        LockList {
            alloc,
            kept: Vec::new(alloc),
            free: Lock::free(alloc),
            many,
        }
    }

    /// The lock at a place.
    #[inline(always)]
    pub fn at(&self, place: usize) -> &Lock
        requires { self.now.free ≡ no_lock }
        ensures { result.now ≡ slice_index_or (locks_in self.now) place no_lock }
    {
        match self.kept.get(place) {
            Some(lock) => lock,
            None => &self.free,
        }
    }

    /// Keeps the lock at a place, and those before it.
    #[inline(always)]
    pub fn make(&mut self, place: usize) -> Result<(), NoMemory>
        requires within { place < self.old.many }
        requires few { length self.old.kept.items ≤ self.old.many }
        ensures kept { OnOk result (place < length self.new.kept.items) }
        ensures all { locks_in self.new ≡ locks_in self.old }
        ensures few { length self.new.kept.items ≤ self.new.many }
        ensures rest { self.new ≡ record self.old { kept = self.new.kept } }
    {
        if place >= self.kept.len() {
            self.kept.reserve(place + 1 - self.kept.len())?;
            add_free(self.alloc, &mut self.kept, place + 1);
        }
        Ok(())
    }
}

/// Adds locks that nobody claims, up to so many, to a list that has room for them.
fn add_free(alloc: Global, kept: &mut Vec<Lock>, many: usize)
    requires room { many ≤ vec_capacity kept.old }
    requires fewer { vec_len kept.old ≤ many }
    ensures all { (all : ℕ) → many ≤ all → all_locks kept.new.items all ≡ all_locks kept.old.items all }
    ensures many { vec_len kept.new ≡ many }
{
    for _place in kept.len()..many {
        kept.push_reserved(Lock::free(alloc));
    }
}
