//! A machine that goes by colours and takes part in snapshots, as a member of a cluster.
ghost use Rattle.std.specs.Prelude.{◌≡◌, []};
ghost use Rattle.snapshot_machines.specs.wave_counts.Counts.{none_counted};

use snapshot_machines::chromatic::ColorSnapMachine;
use snapshot_machines::locking::Reports;
use snapshot_machines::wave_counts::WaveCounts;
use std::alloc::Global;
use std::marker::Model;
use update_api::Program;

/// A machine that goes by colours and takes part in snapshots, with what it counts for waves, the
/// wave that it has to answer still, and what it tells the coordinator. At most `window` of its
/// updates may be outside the last snapshot that was acknowledged; without a window no snapshots
/// are taken.
#[derive(Drop)]
pub struct ChromaticMachine<P: Program> {
    pub(crate) machine: ColorSnapMachine<P>,
    pub(crate) counts: WaveCounts,
    pub(crate) window: Option<u32>,
    pub(crate) reports: Reports,
}

impl<P: Program> Model for ChromaticMachine<P> {
    ghost use Rattle.placed_machines.specs.chromatic.Machines.{ChromaticMachineView};

    ghost Value = { ChromaticMachineView P };

    ghost view = { λ s. record {
      machine = s.machine;
      counts = s.counts;
      window = s.window;
      reports = s.reports;
    } };
}

impl<P: Program> ChromaticMachine<P> {
    /// The machine, where nothing was counted, no wave is held and nothing is to be told.
    pub fn new(
        alloc: Global,
        machine: ColorSnapMachine<P>,
        window: Option<u32>,
    ) -> ChromaticMachine<P>
        ensures machine { result.machine ≡ machine }
        ensures counts { result.counts ≡ none_counted }
        ensures window { result.window ≡ window }
        ensures reports { result.reports.messages ≡ [] }
    {
        ChromaticMachine {
            machine,
            counts: WaveCounts::new(),
            window,
            reports: Reports::new(alloc),
        }
    }

    /// The machine that goes by colours.
    pub fn machine(&self) -> &ColorSnapMachine<P>
        ensures { result.now ≡ self.now.machine }
    {
        &self.machine
    }
}
