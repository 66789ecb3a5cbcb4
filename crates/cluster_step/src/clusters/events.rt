//! What may happen in a cluster that takes snapshots.
ghost use Rattle.std.specs.Prelude.{◌≡◌, option_map};
ghost use Rattle.cluster_step.specs.clusters.Events.{acting, acting_local, acting_passage};

use gl_base::{MachineNo, ScopeId, Vertex};

/// What a machine does by itself.
#[derive(Clone, Copy)]
pub enum Local {
    /// It admits a scope of a vertex of its choice.
    Admit(MachineNo),
    /// It grants the lock of its vertex to the first that waits.
    Grant(MachineNo, Vertex),
    /// The update of a scope is made at its home, or its snapshot update.
    Update(ScopeId),
    Mark(ScopeId),
    /// It puts its section out.
    Section(MachineNo),
    /// It fails: it does nothing more in this attempt.
    Fail(MachineNo),
}

/// What the coordinator does by itself.
#[derive(Clone, Copy)]
pub enum Lead {
    /// The snapshot under way is acknowledged.
    Record,
    /// The next snapshot begins.
    Begin,
    /// The next step of a colour begins.
    Step,
    /// A wave is put out.
    Wave,
    /// The run has ended: nothing happens any more.
    Stop,
}

/// What goes onto a link, and what comes.
#[derive(Clone, Copy)]
pub enum Passage {
    /// The first message that waits at the one machine for the other goes onto the link, and comes.
    Send { from: MachineNo, to: MachineNo },
    Deliver { from: MachineNo, to: MachineNo },
    /// What waits at the coordinator for the machine goes onto the link, and comes.
    SendCall(MachineNo),
    DeliverCall(MachineNo),
    /// What waits at the machine for the coordinator goes onto the link, and comes.
    SendReport(MachineNo),
    DeliverReport(MachineNo),
}

/// What may happen in a cluster that takes snapshots.
#[derive(Clone, Copy)]
pub enum Event {
    Local(Local),
    Lead(Lead),
    Passage(Passage),
}

impl Event {
    /// The machine that acts in it; none where the coordinator does, or takes what comes.
    pub(crate) fn acting(self) -> Option<MachineNo>
        ensures { option_map (λ m. m.0) result ≡ acting self }
    {
        match self {
            Event::Local(local) => Some(local.acting()),
            Event::Lead(_) => None,
            Event::Passage(passage) => passage.acting(),
        }
    }
}

impl Local {
    /// The machine that does it.
    fn acting(self) -> MachineNo
        ensures { result.0 ≡ acting_local self }
    {
        match self {
            Local::Admit(at) | Local::Grant(at, _) | Local::Section(at) | Local::Fail(at) => at,
            Local::Update(scope) | Local::Mark(scope) => scope.home,
        }
    }
}

impl Passage {
    /// The machine that sends it, or to which it comes.
    fn acting(self) -> Option<MachineNo>
        ensures { option_map (λ m. m.0) result ≡ acting_passage self }
    {
        match self {
            Passage::Send { from: at, .. } | Passage::SendReport(at) => Some(at),
            Passage::Deliver { to: at, .. } | Passage::DeliverCall(at) => Some(at),
            Passage::SendCall(_) | Passage::DeliverReport(_) => None,
        }
    }
}
