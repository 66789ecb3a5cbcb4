//! The calls of an object in memory: which of them fail, and how many faults there were.
ghost use Rattle.std.specs.Prelude.{◌≡◌, ◌↔◌, ◌≤◌, Err, IsTrue};
ghost use Rattle.gl_outside.specs.Faults.{Rose};
ghost use Rattle.gl_outside.specs.Calls.{CallCounts, no_calls, NextFails, called, faulted};
ghost use Rattle.gl_outside.specs.MemDisk.{NextStops};
ghost use Rattle.gl_outside.specs.Store.{after_open};

use crate::fault_count::FaultCount;
use crate::{Failed, FileNo, OpenFault};
use std::marker::Model;

/// Counts of calls and of faults, which stay at the end of their type, and the numbers of the calls
/// that fail.
#[derive(Drop)]
pub(crate) struct Calls {
    failing: Vec<u64>,
    count: u64,
    faults: FaultCount,
}

impl Model for Calls {
    ghost use Rattle.gl_outside.specs.Calls.{CallCounts};

    ghost Value = { CallCounts };

    ghost view = { λ c. record { failing = c.failing.items; count = c.count; faults = c.faults } };
}

impl Calls {
    /// Before the first call, which has the number 1.
    pub(crate) fn new(failing: Vec<u64>) -> Self
        ensures { result ≡ no_calls failing.items }
    {
        Calls {
            failing,
            count: 0,
            faults: FaultCount::new(),
        }
    }

    /// Counts a call, and tells whether it is one of those that fail.
    pub(crate) fn count(&mut self) -> bool
        ensures told { IsTrue result ↔ NextFails self.old }
        ensures counted { self.new ≡ called self.old }
    {
        self.count = self.count.saturating_add(1);
        self.failing.contains(&self.count)
    }

    /// Counts a call, and tells whether it is one of those that fail, or past the first `stop`
    /// calls.
    pub(crate) fn count_until(&mut self, stop: u64) -> bool
        ensures told { IsTrue result ↔ NextStops self.old stop }
        ensures counted { self.new ≡ called self.old }
    {
        let listed = self.count();
        listed || self.count > stop
    }

    /// Counts a fault.
    pub(crate) fn fault(&mut self) -> Failed
        ensures counted { self.new ≡ faulted self.old }
        ensures later { self.old.faults ≤ self.new.faults }
        ensures rose { Rose self.old.faults self.new.faults }
    {
        self.faults.raise()
    }

    /// Counts a fault where an open failed.
    pub(crate) fn settle(&mut self, answer: Result<FileNo, OpenFault>)
        ensures counted { (before : CallCounts) → self.old ≡ called before →
            self.new ≡ after_open before answer }
        ensures later { self.old.faults ≤ self.new.faults }
        ensures rose { answer ≡ Err OpenFault.Failed → Rose self.old.faults self.new.faults }
    {
        match answer {
            Ok(_) | Err(OpenFault::NoMemory) => {}
            Err(OpenFault::Failed) => {
                self.fault();
            }
        }
    }
}
