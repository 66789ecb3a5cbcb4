//! Messages go from an outbox to a link.
ghost use Rattle.std.specs.Prelude.{◌≡◌, ℕ, List, length, OnOk, OnErr, IsErrOf};
ghost use Rattle.cluster_laws.specs.cluster_core.Settings.{Setting};
ghost use Rattle.full_laws.specs.FullActions.{HasFirstFull};
ghost use Rattle.full_laws.specs.FullMessages.{FullMessage as ModelMessage};
ghost use Rattle.full_laws.specs.FullParts.{FullPart};
ghost use Rattle.full_cluster.specs.FullMachines.{HasSentFrom, IsMachineOf, IsSameMachine};
ghost use Rattle.full_cluster.specs.FullQueues.{AreQueuesOf, HasSent};

use crate::{FullMachine, FullQueues};
use gl_base::{MachineNo, Refused};

/// The first message for a machine in an outbox goes to the end of the link there. `NotNow` comes
/// exactly where no message waits for it, and after an error all is as it was.
pub fn send(out: &mut FullQueues, links: &mut FullQueues, to: MachineNo) -> Result<(), Refused>
    requires { length links.old.queues.items ≡ length out.old.queues.items }
    ensures count { length out.new.queues.items ≡ length out.old.queues.items }
    ensures links_count { length links.new.queues.items ≡ length links.old.queues.items }
    ensures sent { (st : Setting) (waits on : ℕ → List ModelMessage) →
        AreQueuesOf st out.old.queues.items waits → AreQueuesOf st links.old.queues.items on →
        OnOk result (HasSent st out.new.queues.items links.new.queues.items waits on to.0) }
    ensures not_now { (st : Setting) (waits : ℕ → List ModelMessage) →
        AreQueuesOf st out.old.queues.items waits → IsErrOf result Refused.NotNow →
        HasFirstFull (waits to.0) → ⊥ }
    ensures no_memory { (st : Setting) (waits : ℕ → List ModelMessage) →
        AreQueuesOf st out.old.queues.items waits → IsErrOf result Refused.NoMemory →
        HasFirstFull (waits to.0) }
    ensures unchanged { (st : Setting) (waits on : ℕ → List ModelMessage) →
        AreQueuesOf st out.old.queues.items waits → AreQueuesOf st links.old.queues.items on →
        OnErr result (AreQueuesOf st out.new.queues.items waits ×
        AreQueuesOf st links.new.queues.items on) }
{
    if !out.waits(to) {
        return Err(Refused::NotNow);
    }
    links.reserve(to)?;
    if let Some(message) = out.take(to) {
        links.put(to, message);
    }
    Ok(())
}

impl FullMachine {
    /// The first message for a machine goes to the end of the link there. `NotNow` comes exactly
    /// where no message waits for it, and after an error all is as it was.
    pub fn send(&mut self, links: &mut FullQueues, to: MachineNo) -> Result<(), Refused>
        requires { length links.old.queues.items ≡ length self.old.out.queues.items }
        ensures still { IsSameMachine self.old self.new }
        ensures links_count { length links.new.queues.items ≡ length links.old.queues.items }
        ensures sent { (st : Setting) (part : FullPart) (on : ℕ → List ModelMessage) →
            IsMachineOf st self.old part → AreQueuesOf st links.old.queues.items on →
            OnOk result (HasSentFrom st self.new links.new.queues.items part on to.0) }
        ensures not_now { (st : Setting) (part : FullPart) → IsMachineOf st self.old part →
            IsErrOf result Refused.NotNow → HasFirstFull (part.out to.0) → ⊥ }
        ensures no_memory { (st : Setting) (part : FullPart) → IsMachineOf st self.old part →
            IsErrOf result Refused.NoMemory → HasFirstFull (part.out to.0) }
        ensures unchanged { (st : Setting) (part : FullPart) (on : ℕ → List ModelMessage) →
            IsMachineOf st self.old part → AreQueuesOf st links.old.queues.items on →
            OnErr result (IsMachineOf st self.new part ×
            AreQueuesOf st links.new.queues.items on) }
    {
        send(&mut self.out, links, to)
    }
}
