//! What goes between a machine and the coordinator on a link.
ghost use Rattle.std.specs.Prelude.{◌≡◌, ◌++◌, ◌∷◌, [], true, false, IfOk};
ghost use Rattle.coordinator.specs.machine_api.Promises.{HasHeard, IsReporting, OfEach, message_view};
ghost use Rattle.wire.specs.declared.wire_msgs.messages.Message.{Message};
ghost use Rattle.wire_board.specs.Hearing.{HasHeardFirst, HasToldFirst, MayHearFirst};

use cluster_step::clusters::{Link, SavingMachine};
use gl_base::NoMemory;

/// Hears the first call of the link, and says whether there was one. For want of memory it stays.
pub(crate) fn hear_first<M: SavingMachine>(
    machine: &mut M,
    queue: &mut Link,
) -> Result<bool, NoMemory>
    requires { MayHearFirst M.represents machine.old queue.old.messages }
    ensures both { HasHeardFirst M.represents machine.old queue.old.messages
        queue.new.messages machine.new }
    ensures heard { IfOk result (λ some. some ≡ true → (message : Message) ×
        (queue.old.messages ≡ message_view message ∷ queue.new.messages) ×
        HasHeard M.represents machine.old message machine.new) }
    ensures none { IfOk result (λ some. some ≡ false →
        (machine.new ≡ machine.old) × (queue.old.messages ≡ [])) }
{
    match queue.take() {
        Some(message) => match machine.hear(message) {
            Ok(()) => Ok(true),
            Err(back) => {
                queue.put_back(back.message);
                Err(NoMemory)
            }
        },
        None => Ok(false),
    }
}

/// Puts the machine's first report on the link, and says whether there was one. For want of memory
/// it stays.
pub(crate) fn tell_first<M: SavingMachine>(
    machine: &mut M,
    queue: &mut Link,
) -> Result<bool, NoMemory>
    ensures both { HasToldFirst M.represents machine.old queue.old.messages
        queue.new.messages machine.new }
    ensures told { IfOk result (λ some. some ≡ true → (message : Message) ×
        (queue.new.messages ≡ queue.old.messages ++ message_view message ∷ []) ×
        OfEach M.represents machine.old (IsReporting M.represents message machine.new)) }
    ensures none { IfOk result (λ some. some ≡ false →
        OfEach M.represents machine.old (λ st a m. m.out ≡ [])) }
{
    queue.reserve()?;
    match machine.report_take() {
        Some(message) => {
            queue.push(message);
            Ok(true)
        }
        None => Ok(false),
    }
}
