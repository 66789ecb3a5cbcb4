//! The answers to one wave.
ghost use Rattle.std.specs.Prelude.{◌≡◌, ◌<◌, ◌↔◌, true, None, Some, length, slice_index_or, slice_set, IfOk};
ghost use Rattle.coordinator.specs.quiet_waves.Waves.{no_counts};
ghost use Rattle.coordinator.specs.quiet_waves.Inner.Sums.{AreSums};

use gl_base::{Counted, MachineNo, NoMemory};
use std::alloc::Global;
use std::marker::Model;

/// What the answers to a wave add up to.
#[derive(Clone, Copy)]
pub struct Sums {
    /// How many machines have not answered.
    pub missing: u32,
    /// How many machines have not answered that they are idle.
    pub restless: u32,
    pub sent: u128,
    pub received: u128,
    pub updates: u128,
}

impl Sums {
    /// Nobody of so many machines has answered.
    fn of_none(machines: u32) -> Sums
        ensures { result ≡ record {
          missing = machines;
          restless = machines;
          sent = 0;
          received = 0;
          updates = 0;
        } }
    {
        Sums {
            missing: machines,
            restless: machines,
            sent: 0,
            received: 0,
            updates: 0,
        }
    }
}

/// What each machine has answered to a wave, where it has. Contracts see the list of the answers.
#[derive(Drop)]
pub struct Answers {
    counts: Vec<Option<Counted>>,
    sums: Sums,
}

impl Model for Answers {
    ghost use Rattle.std.specs.Prelude.{List, Option};
    ghost use Rattle.gl_base.specs.declared.scopes.Counted.{Counted};
    ghost use Rattle.coordinator.specs.quiet_waves.Inner.Sums.{AreSumsKept};

    ghost Value = { List (Option Counted) };

    ghost view = { λ a. a.counts.items };

    ghost invariant = { λ a. AreSumsKept a.counts.items a.sums };
}

impl Answers {
    /// Nobody of so many machines has answered.
    pub fn none(alloc: Global, machines: u16) -> Result<Answers, NoMemory>
        ensures { IfOk result (λ a. a ≡ no_counts machines) }
    {
        Ok(Answers {
            counts: Vec::from_elem(alloc, None, machines as usize)?,
            sums: Sums::of_none(machines as u32),
        })
    }

    /// What they add up to.
    pub fn sums(&self) -> Sums
        ensures { AreSums self.now result }
    {
        self.sums
    }

    /// How many machines may answer.
    pub fn machines(&self) -> usize
        ensures { result ≡ length self.now }
    {
        self.counts.len()
    }

    /// Whether machine `m` has not answered.
    pub fn is_missing(&self, m: MachineNo) -> bool
        requires { m.0 < length self.now }
        ensures { (result ≡ true) ↔ (slice_index_or self.now m.0 None ≡ None) }
    {
        self.counts[m.0 as usize].is_none()
    }

    /// Machine `m` answers.
    pub fn put(&mut self, m: MachineNo, counted: Counted)
        requires machine { m.0 < length self.old }
        requires missing { slice_index_or self.old m.0 None ≡ None }
        ensures { self.new ≡ slice_set self.old m.0 (Some counted) }
    {
        self.counts[m.0 as usize] = Some(counted);
        self.sums = Sums {
            missing: self.sums.missing - 1,
            restless: self.sums.restless - if counted.idle { 1 } else { 0 },
            sent: self.sums.sent + counted.sent as u128,
            received: self.sums.received + counted.received as u128,
            updates: self.sums.updates + counted.updates as u128,
        };
    }

    /// Forgets the answers.
    pub fn clear(&mut self)
        ensures { self.new ≡ no_counts (length self.old) }
    {
        self.counts.fill(None);
        self.sums = Sums::of_none(self.counts.len() as u32);
    }
}
