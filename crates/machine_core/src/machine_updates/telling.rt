//! The other machines of a scope are told of its update.
ghost use Rattle.std.specs.Prelude.{◌≡◌, ℕ, ◌<◌, true, length};
ghost use Rattle.wire.specs.outboxes.Outboxes.{OutboxesView};
ghost use Rattle.machine_core.specs.machine_parts.Parts.{sides_at, datum_here};
ghost use Rattle.machine_core.specs.machine_updates.Reserving.{CanTell, is_to_be_told};
ghost use Rattle.machine_core.specs.machine_updates.Committing.{done_told, after_told};
ghost use Rattle.machine_core.specs.machine_updates.Telling.{HasWord};

use crate::machine_updates::reserving::Prepared;
use gl_base::Peer;
use local_graph::Outcome;
use partition::machine_numbers::Numbers;
use wire::outboxes::Outboxes;
use wire::wire_msgs::Message;

/// Tells each of these machines of an update that was made and is not finished yet. It takes no
/// memory.
pub fn tell_all(out: &mut Outboxes, numbers: &Numbers, outcome: &Outcome, prepared: Vec<Prepared>)
    requires can { CanTell out.old outcome.now.work.scope outcome.now.work.vertex
        (length (sides_at numbers.now.local outcome.now.work.vertex.0)) prepared.items }
    requires links { length outcome.now.work.row.links.items ≡ length
        (sides_at numbers.now.local outcome.now.work.vertex.0) }
    requires numbers { length outcome.now.work.row.numbers.items ≡ length
        (sides_at numbers.now.local outcome.now.work.vertex.0) }
    requires edges { length outcome.now.edges.items ≡ length
        (sides_at numbers.now.local outcome.now.work.vertex.0) }
    requires version { (datum_here numbers.now outcome.now.work.vertex.0).version < 4294967295 }
    ensures told { out.new ≡ after_told (done_told numbers.now outcome.now) prepared.items out.old }
    ensures words { (q : ℕ) → is_to_be_told prepared.items q ≡ true →
        HasWord numbers.now outcome.now q }
{
    for one in prepared {
        let Prepared { to, mut done } = one;
        numbers.tell(&mut done, to, outcome);
        out.put(Peer::Machine(to), Message::Done(done));
    }
}
