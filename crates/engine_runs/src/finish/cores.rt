//! What is read of a machine of either engine.
ghost use Rattle.std.specs.Prelude.{◌≡◌};
ghost use Rattle.engine_runs.specs.finish.Inner.Cores.{IsOrderly, KnowsPlaces, core_held};

use machine_core::machine_parts::Core;
use placed_machines::any_machine::AnyMachine;
use update_api::Program;

/// The parts of the machine, which are in order.
pub(crate) fn core_of<P: Program>(member: &AnyMachine<P>) -> &Core
    ensures parts { result.now ≡ core_held member.now }
    ensures orderly { IsOrderly result.now }
    ensures places { KnowsPlaces result.now }
{
    match member {
        AnyMachine::Locking(member) => member.machine().core(),
        AnyMachine::Chromatic(member) => member.machine().core(),
    }
}
