//! A word for each machine.
ghost use Rattle.std.specs.Prelude.{◌≡◌, ℕ, ◌<◌, [], ◌∷◌, ◌++◌, length, OnOk};
ghost use Rattle.coordinator.specs.coord_core.Coordinators.{MessageView, message_view, waiting_at};
ghost use Rattle.coordinator.specs.coord_core.Inner.Asking.{SameMessages, room_for};
ghost use Rattle.coordinator.specs.coord_core.Inner.Words.{word_message};

use gl_base::{MachineNo, NoMemory, Peer};
use wire::outboxes::Outboxes;
use wire::wire_msgs::Message;

/// What the coordinator tells each machine.
#[derive(Clone, Copy)]
pub enum Word {
    /// The snapshot of this number begins.
    Begin(u32),
    /// The snapshot of this number is acknowledged.
    Committed(u32),
    /// The machine is asked for its counts in this wave.
    Wave(u64),
    /// The next step begins, of this colour.
    Step(u32),
}

impl Word {
    /// The word as a message.
    fn message(self) -> Message
        ensures { message_view result ≡ word_message self }
    {
        match self {
            Word::Begin(number) => Message::Begin { number },
            Word::Committed(number) => Message::Committed { number },
            Word::Wave(wave) => Message::Wave { wave },
            Word::Step(colour) => Message::Step { colour },
        }
    }
}

/// Makes room for one more message to each of the machines.
pub fn reserve_each(out: &mut Outboxes, machines: u16) -> Result<(), NoMemory>
    requires { length out.old.machines ≡ machines }
    ensures room { OnOk result ((b : ℕ) → b < machines → 0 < room_for out.new b) }
    ensures same { SameMessages out.old out.new }
{
    for machine in 0..machines {
        out.reserve(Peer::Machine(MachineNo(machine)))?;
    }
    Ok(())
}

/// Each of the machines is told this. There is room for that.
pub fn tell_each(out: &mut Outboxes, machines: u16, word: Word)
    requires many { length out.old.machines ≡ machines }
    requires room { (b : ℕ) → b < machines → 0 < room_for out.old b }
    ensures many { length out.new.machines ≡ machines }
    ensures told { (b : ℕ) → b < machines →
        waiting_at out.new b ≡ waiting_at out.old b ++ word_message word ∷ [] }
{
    for machine in 0..machines {
        out.put(Peer::Machine(MachineNo(machine)), word.message());
    }
}
