//! What the coordinator tells and hears on a link.
ghost use Rattle.std.specs.Prelude.{◌≡◌, ◌++◌, ◌∷◌, [], true, false, IfOk, List, None, Some};
ghost use Rattle.coordinator.specs.coord_core.Calls.{HasHandedOver, HasTakenReport, MayReport};
ghost use Rattle.coordinator.specs.machine_api.Promises.{MessageView, message_view};
ghost use Rattle.wire.specs.declared.wire_msgs.messages.Message.{Message};
ghost use Rattle.wire_board.specs.Seats.{HasHeardReport, HasToldCall};

use cluster_step::clusters::{Coordinator, Link};
use gl_base::{MachineNo, NoMemory};

/// Puts the first call for a machine on the link, and says whether there was one. For want of
/// memory it stays.
pub(crate) fn tell_one(
    coordinator: &mut Coordinator,
    queue: &mut Link,
    to: MachineNo,
) -> Result<bool, NoMemory>
    ensures both { HasToldCall coordinator.old to.0 queue.old.messages
        queue.new.messages coordinator.new }
    ensures told { IfOk result (λ some. some ≡ true → (message : Message) ×
        (queue.new.messages ≡ queue.old.messages ++ message_view message ∷ []) ×
        HasHandedOver coordinator.old coordinator.new to.0 (Some message)) }
    ensures none { IfOk result (λ some. some ≡ false →
        HasHandedOver coordinator.old coordinator.new to.0 None) }
{
    queue.reserve()?;
    match coordinator.outbox_take(to) {
        Some(message) => {
            queue.push(message);
            Ok(true)
        }
        None => Ok(false),
    }
}

/// Takes the first report of a machine off the link, and says whether there was one.
pub(crate) fn hear_one(coordinator: &mut Coordinator, queue: &mut Link, from: MachineNo) -> bool
    requires { (message : Message) (rest : List MessageView) →
        queue.old.messages ≡ message_view message ∷ rest →
        MayReport coordinator.old from.0 (message_view message) }
    ensures both { HasHeardReport coordinator.old from.0 queue.old.messages
        queue.new.messages coordinator.new }
    ensures heard { result ≡ true → (message : Message) ×
        (queue.old.messages ≡ message_view message ∷ queue.new.messages) ×
        HasTakenReport coordinator.old coordinator.new from.0 (message_view message) }
    ensures none { result ≡ false → (coordinator.new ≡ coordinator.old) ×
        (queue.old.messages ≡ []) }
{
    match queue.take() {
        Some(message) => {
            coordinator.receive(from, message);
            true
        }
        None => false,
    }
}
