//! A machine that takes part in snapshots.
ghost use Rattle.std.specs.Prelude.{◌≡◌, IfOk};
ghost use Rattle.coordinator.specs.snap_update.Snaps.{nothing_since};
ghost use Rattle.snapshot_machines.specs.saving.Machines.{IsFreshMachine};

use coordinator::snap_update::SnapPart;
use gl_base::NoMemory;
use machine_core::machine_parts::Core;
use machine_core::machine_updates::Spares;
use std::alloc::Global;
use std::marker::Model;
use update_api::Program;

/// So many updates of a machine are made at a time, each with lists of its own.
const AT_A_TIME: usize = 1;

/// A machine with its program and with what it keeps for snapshots. It takes the memory that it
/// needs itself. Between its calls no update is under way: each row is in.
#[derive(Drop)]
pub struct SnapMachine<P: Program> {
    pub(crate) core: Core,
    pub(crate) snaps: SnapPart,
    /// The own vertices before this place, ascending, have the mark of the snapshot that is known.
    pub(crate) seen: usize,
    pub(crate) program: P,
    pub(crate) spares: Spares,
    pub(crate) alloc: Global,
}

impl<P: Program> Model for SnapMachine<P> {
    ghost use Rattle.snapshot_machines.specs.saving.Machines.{IsSnapMachine, SnapMachineView};

    ghost Value = { SnapMachineView P };

    ghost view = { λ m. record { core = m.core; kept = m.snaps; program = m.program } };

    ghost invariant = { λ m. IsSnapMachine m.core m.snaps m.seen };
}

impl<P: Program> SnapMachine<P> {
    /// The machine of these parts, with this program: nothing was made since the snapshot with
    /// which the run began.
    pub fn new(alloc: Global, core: Core, program: P) -> Result<SnapMachine<P>, NoMemory>
        requires { IsFreshMachine core }
        ensures core { IfOk result (λ m. m.core ≡ core) }
        ensures kept { IfOk result (λ m. m.kept ≡ nothing_since core.terms.base m.kept.room) }
        ensures program { IfOk result (λ m. m.program ≡ program) }
    {
        // A drop by a call is proved in one step; one at the end of the scope is proved here, field
        // by field.
        let Ok(spares) = Spares::with_room(alloc, AT_A_TIME) else {
            drop(core);
            drop(program);
            return Err(NoMemory);
        };
        let snaps = SnapPart::new(alloc, core.terms.base);
        Ok(SnapMachine {
            core,
            snaps,
            seen: 0,
            program,
            spares,
            alloc,
        })
    }
}
