//! Counts of faults.
ghost use Rattle.std.specs.Prelude.{◌≡◌, ◌≤◌};
ghost use Rattle.gl_outside.specs.Faults.{Rose};
ghost use Rattle.gl_outside.specs.Calls.{raised};

use crate::Failed;
use std::marker::Model;

/// How many faults there were, in 64 bits: at its end the count stays.
#[derive(Drop)]
pub(crate) struct FaultCount {
    count: u64,
}

impl Model for FaultCount {
    ghost use Rattle.std.specs.Prelude.{ℕ};

    ghost Value = { ℕ };

    ghost view = { λ f. f.count };
}

impl FaultCount {
    pub(crate) fn new() -> Self
        ensures { result ≡ 0 }
    {
        FaultCount { count: 0 }
    }

    /// Counts a fault.
    pub(crate) fn raise(&mut self) -> Failed
        ensures counted { self.new ≡ raised self.old }
        ensures later { self.old ≤ self.new }
        ensures rose { Rose self.old self.new }
    {
        self.count = self.count.saturating_add(1);
        Failed
    }
}
