//! What a machine tells on a link.
ghost use Rattle.std.specs.Prelude.{◌≡◌, ◌++◌, List, map, OnOk};
ghost use Rattle.coordinator.specs.machine_api.Promises.{OfEach};
ghost use Rattle.coordinator.specs.machine_api.Told.{message_read};
ghost use Rattle.wire_board.specs.Hearing.{HasToldAll, MessageView};

use cluster_step::clusters::{Link, SavingMachine};
use gl_base::{MachineNo, NoMemory};

/// Puts the messages that wait for a machine on the link to it. For want of memory some may be
/// left.
pub(crate) fn tell_all<M: SavingMachine>(
    machine: &mut M,
    to: MachineNo,
    queue: &mut Link,
) -> Result<(), NoMemory>
    ensures { (told : List MessageView) × (queue.new.messages ≡ queue.old.messages ++ told) ×
        OfEach M.represents machine.old (HasToldAll M.represents to.0 told machine.new)
        × OnOk result (OfEach M.represents machine.old (λ st a m.
        m.part.out to.0 ≡ map message_read told)) }
{
    for _ in 0..u64::MAX {
        queue.reserve()?;
        match machine.outbox_take(to) {
            Some(message) => queue.push(message),
            None => return Ok(()),
        }
    }
    Err(NoMemory)
}
