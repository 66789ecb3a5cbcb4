//! What a machine hears on a link.
ghost use Rattle.std.specs.Prelude.{◌≡◌, ◌++◌, [], List, OnOk};
ghost use Rattle.wire_board.specs.Hearing.{CanHear, HasHeardAll, MessageView};

use cluster_step::clusters::{Link, SavingMachine};
use gl_base::{MachineNo, NoMemory};

/// Receives the messages of the link from a machine. For want of memory some may be left.
pub(crate) fn hear_all<M: SavingMachine>(
    machine: &mut M,
    from: MachineNo,
    _me: usize,
    queue: &mut Link,
) -> Result<(), NoMemory>
    requires { CanHear M.represents machine.old from.0 _me queue.old.messages }
    ensures heard { (heard : List MessageView) ×
        (queue.old.messages ≡ heard ++ queue.new.messages) ×
        HasHeardAll M.represents machine.old from.0 _me heard queue.new.messages machine.new }
    ensures whole { OnOk result (queue.new.messages ≡ []) }
{
    while let Some(message) = queue.take() {
        match machine.receive(from, message) {
            Ok(()) => (),
            Err(back) => {
                queue.put_back(back.message);
                return Err(NoMemory);
            }
        }
    }
    Ok(())
}
