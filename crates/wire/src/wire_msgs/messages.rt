//! Messages.
ghost use Rattle.std.specs.Prelude.{◌≡◌, IfOk};
ghost use Rattle.wire.specs.wire_msgs.Messages.{IsSameMessage, IsSameDone, IsSameSection};

use gl_base::{Counted, Datum, EdgeNo, Entry, MachineNo, NoMemory, ScopeId, Vertex};
use std::alloc::Global;

/// What one peer tells another.
#[derive(Drop)]
pub enum Message {
    /// The scope of this centre asks for its locks here, and then at the machines `rest` in turn.
    /// To a machine.
    Ask {
        scope: ScopeId,
        centre: Vertex,
        rest: Vec<MachineNo>,
    },
    /// The scope has all its locks. To its home.
    Ready {
        scope: ScopeId,
    },
    /// The scope's update was made. From its home to a machine of the scope.
    Done(Done),
    /// A snapshot begins. From the coordinator.
    Begin {
        number: u32,
    },
    /// What a machine saved. To the coordinator.
    Section(Section),
    /// A snapshot is stored. From the coordinator.
    Committed {
        number: u32,
    },
    /// A wave asks for counts. From the coordinator.
    Wave {
        wave: u64,
    },
    /// What a machine counts in a wave. To the coordinator.
    Count {
        wave: u64,
        counted: Counted,
    },
    /// The step of a colour begins. From the coordinator.
    Step {
        colour: u32,
    },
    /// A machine wants a snapshot after the last one that it knows to be stored. To the
    /// coordinator.
    Want {
        acknowledged: u32,
    },
}

/// What an update tells another machine of its scope: the centre's datum where it changed, the new
/// numbers of the edges between the centre and that machine's vertices that changed, and which of
/// that machine's vertices wake and become pending. `number` is that of the snapshot where some
/// become pending, else 0.
#[derive(Drop)]
pub struct Done {
    pub scope: ScopeId,
    pub centre: Vertex,
    pub datum: Option<Datum>,
    pub edges: Vec<(EdgeNo, u64)>,
    pub wakes: Vec<Vertex>,
    pub pends: Vec<Vertex>,
    pub number: u32,
}

/// What a machine saved for a snapshot, and the entries of its vertices that the snapshot has and
/// the one before has not.
#[derive(Drop)]
pub struct Section {
    pub number: u32,
    pub vertices: Vec<(Vertex, u64)>,
    pub edges: Vec<(EdgeNo, u64)>,
    pub entries: Vec<Entry>,
}

/// A message that was not received for want of memory.
#[derive(Drop)]
pub struct Returned {
    pub message: Message,
}

impl Message {
    /// The same message once more.
    pub fn copy(&self, alloc: Global) -> Result<Message, NoMemory>
        ensures { IfOk result (λ m. IsSameMessage self.now m) }
    {
        Ok(match self {
            Message::Ask {
                scope,
                centre,
                rest,
            } => Message::Ask {
                scope: *scope,
                centre: *centre,
                rest: Vec::from_slice(alloc, rest)?,
            },
            Message::Ready { scope } => Message::Ready { scope: *scope },
            Message::Done(done) => Message::Done(done.copy(alloc)?),
            Message::Begin { number } => Message::Begin { number: *number },
            Message::Section(section) => Message::Section(section.copy(alloc)?),
            Message::Committed { number } => Message::Committed { number: *number },
            Message::Wave { wave } => Message::Wave { wave: *wave },
            Message::Count { wave, counted } => Message::Count {
                wave: *wave,
                counted: *counted,
            },
            Message::Step { colour } => Message::Step { colour: *colour },
            Message::Want { acknowledged } => Message::Want {
                acknowledged: *acknowledged,
            },
        })
    }
}

impl Done {
    /// The same once more.
    pub fn copy(&self, alloc: Global) -> Result<Done, NoMemory>
        ensures { IfOk result (λ d. IsSameDone self.now d) }
    {
        Ok(Done {
            scope: self.scope,
            centre: self.centre,
            datum: self.datum,
            edges: Vec::from_slice(alloc, &self.edges)?,
            wakes: Vec::from_slice(alloc, &self.wakes)?,
            pends: Vec::from_slice(alloc, &self.pends)?,
            number: self.number,
        })
    }
}

impl Section {
    /// The same once more.
    pub fn copy(&self, alloc: Global) -> Result<Section, NoMemory>
        ensures { IfOk result (λ s. IsSameSection self.now s) }
    {
        Ok(Section {
            number: self.number,
            vertices: Vec::from_slice(alloc, &self.vertices)?,
            edges: Vec::from_slice(alloc, &self.edges)?,
            entries: Vec::from_slice(alloc, &self.entries)?,
        })
    }
}
