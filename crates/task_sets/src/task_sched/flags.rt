//! Flags that are counted.
ghost use Rattle.std.specs.Prelude.{◌≡◌, ℕ, ◌<◌, true, false, length, slice_set, IfOk};
ghost use Rattle.task_sets.specs.task_sched.Tasks.{is_flagged};
ghost use Rattle.task_sets.specs.task_sched.Inner.Flags.{HasFlag};

use gl_base::{NoMemory, Vertex};
use std::alloc::Global;
use std::marker::Model;

/// A flag for each vertex, and how many have theirs.
#[derive(Drop)]
pub struct CountedFlags {
    flags: Vec<bool>,
    count: usize,
}

impl Model for CountedFlags {
    ghost use Rattle.std.specs.Prelude.{List, Bool};
    ghost use Rattle.task_sets.specs.task_sched.Inner.Flags.{AreCounted};

    ghost Value = { List Bool };

    ghost view = { λ f. f.flags.items };

    ghost invariant = { λ f. AreCounted f.flags.items f.count };
}

impl CountedFlags {
    /// No vertex below `count` has its flag.
    pub fn none(alloc: Global, count: u32) -> Result<CountedFlags, NoMemory>
        ensures count { IfOk result (λ f. length f ≡ count) }
        ensures none { IfOk result (λ f. (u : ℕ) → is_flagged f u ≡ false) }
    {
        Ok(CountedFlags {
            flags: Vec::from_elem(alloc, false, count as usize)?,
            count: 0,
        })
    }

    /// The flags.
    pub fn as_slice(&self) -> &[bool]
        ensures { result.now ≡ self.now }
    {
        &self.flags
    }

    /// Whether v has its flag.
    pub fn has(&self, v: Vertex) -> bool
        requires { v.0 < length self.now }
        ensures { result ≡ is_flagged self.now v.0 }
    {
        self.flags[v.0 as usize]
    }

    /// Whether a vertex has its flag.
    pub fn has_some(&self) -> bool
        ensures some { result ≡ true → HasFlag self.now }
        ensures none { result ≡ false → (u : ℕ) → is_flagged self.now u ≡ false }
    {
        self.count > 0
    }

    /// Gives v its flag.
    pub fn set(&mut self, v: Vertex)
        requires { v.0 < length self.old }
        ensures { self.new ≡ slice_set self.old v.0 true }
    {
        let place = v.0 as usize;
        if !self.flags[place] {
            self.flags[place] = true;
            self.count += 1;
        }
    }

    /// Takes its flag from v.
    pub fn take(&mut self, v: Vertex)
        requires { v.0 < length self.old }
        ensures { self.new ≡ slice_set self.old v.0 false }
    {
        let place = v.0 as usize;
        if self.flags[place] {
            self.flags[place] = false;
            self.count -= 1;
        }
    }

    /// Takes each flag.
    pub fn clear(&mut self)
        ensures count { length self.new ≡ length self.old }
        ensures none { (u : ℕ) → is_flagged self.new u ≡ false }
    {
        clear_all(&mut self.flags);
        self.count = 0;
    }
}

/// Takes each flag.
fn clear_all(flags: &mut Vec<bool>)
    ensures count { length flags.new.items ≡ length flags.old.items }
    ensures none { (u : ℕ) → is_flagged flags.new.items u ≡ false }
{
    for place in 0..flags.len() {
        flags[place] = false;
    }
}
