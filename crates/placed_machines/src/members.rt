//! A new machine as a member of a cluster, as the engine wants it.
ghost use Rattle.std.specs.Prelude.{IfOk, Some};
ghost use Rattle.placed_machines.specs.Inner.Members.{CanRunInColours, FitsEngine, IsNewChromaticMachine, IsNewMember, in_own_colours};

use crate::any_machine::AnyMachine;
use crate::chromatic::ChromaticMachine;
use crate::placing::Places;
use coordinator::coord_core::Engine;
use gl_base::NoMemory;
use placement::places::colours_of;
use snapshot_machines::chromatic::ColorSnapMachine;
use snapshot_machines::locking::LockingMachine;
use snapshot_machines::saving::SnapMachine;
use std::alloc::Global;
use update_api::Program;

/// The machine as a member of a cluster that goes by the places' engine: nothing was counted, and
/// nothing is to be told.
pub fn new_member<P: Program>(
    alloc: Global,
    machine: SnapMachine<P>,
    places: &Places,
) -> Result<AnyMachine<P>, NoMemory>
    requires { FitsEngine P.meaning places.now.run.engine places.now.colours.items machine }
    ensures { IfOk result
        (IsNewMember places.now.run.engine places.now.colours.items places.now.run.window
        machine) }
{
    let window = places.run.window;
    match places.run.engine {
        Engine::Locking => Ok(AnyMachine::Locking(LockingMachine::new(alloc, machine, window))),
        Engine::Chromatic(_) => {
            let member = new_chromatic(alloc, machine, &places.colours, window)?;
            Ok(AnyMachine::Chromatic(member))
        }
    }
}

/// The machine that goes by its vertices' colours, where `colours` has those of all vertices of the
/// graph.
fn new_chromatic<P: Program>(
    alloc: Global,
    machine: SnapMachine<P>,
    colours: &[u32],
    window: Option<u32>,
) -> Result<ChromaticMachine<P>, NoMemory>
    requires { CanRunInColours P.meaning colours.now machine }
    ensures { IfOk result (IsNewChromaticMachine (in_own_colours machine colours.now) window) }
{
    let own = colours_of(alloc, &machine.core().by_place, colours)?;
    let machine = ColorSnapMachine::new(alloc, machine, &own)?;
    Ok(ChromaticMachine::new(alloc, machine, window))
}
