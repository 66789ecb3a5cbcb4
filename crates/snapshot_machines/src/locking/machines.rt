//! A machine that takes part in snapshots, as a member of a cluster.
ghost use Rattle.std.specs.Prelude.{◌≡◌, true, []};
ghost use Rattle.snapshot_machines.specs.wave_counts.Counts.{none_counted};

use crate::locking::reports::Reports;
use crate::saving::SnapMachine;
use crate::wave_counts::WaveCounts;
use std::alloc::Global;
use std::marker::Model;
use update_api::Program;

/// A machine that takes part in snapshots, and at which scopes take locks, with what it counts for
/// waves and with what it tells the coordinator. At most `window` of its updates may be outside the
/// last snapshot that was acknowledged; without a window no snapshots are taken.
#[derive(Drop)]
pub struct LockingMachine<P: Program> {
    pub(crate) machine: SnapMachine<P>,
    pub(crate) counts: WaveCounts,
    pub(crate) window: Option<u32>,
    pub(crate) reports: Reports,
}

impl<P: Program> Model for LockingMachine<P> {
    ghost use Rattle.std.specs.Prelude.{◌≡◌, true};
    ghost use Rattle.snapshot_machines.specs.locking.Machines.{LockingMachineView};

    ghost Value = { LockingMachineView P };

    ghost view = { λ s. record {
      machine = s.machine;
      counts = s.counts;
      window = s.window;
      reports = s.reports;
    } };

    ghost invariant = { λ s. s.machine.core.terms.locks ≡ true };
}

impl<P: Program> LockingMachine<P> {
    /// The machine, where nothing was counted and nothing is to be told.
    pub fn new(alloc: Global, machine: SnapMachine<P>, window: Option<u32>) -> LockingMachine<P>
        requires { machine.core.terms.locks ≡ true }
        ensures machine { result.machine ≡ machine }
        ensures counts { result.counts ≡ none_counted }
        ensures window { result.window ≡ window }
        ensures reports { result.reports.messages ≡ [] }
    {
        LockingMachine {
            machine,
            counts: WaveCounts::new(),
            window,
            reports: Reports::new(alloc),
        }
    }

    /// The machine that takes part in snapshots.
    pub fn machine(&self) -> &SnapMachine<P>
        ensures { result.now ≡ self.now.machine }
    {
        &self.machine
    }
}
