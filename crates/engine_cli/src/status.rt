//! How a call ended.
ghost use Rattle.std.specs.Prelude.{◌≡◌};
ghost use Rattle.engine_cli.specs.Status.{status_of_no_input, status_of_no_store, status_of_writing};
ghost use Rattle.engine_cli.specs.Status.{exit_number};

use gl_base::{AtomsFault, JobFault, TextFault, UsageFault, Vertex};
use graph_text::generate::Writing;
use job_io::job_files::NoInput;
use job_io::job_stores::StoreError;
use store::store_format::StoreFault;

/// How a call of the engine ended.
#[derive(Debug, Drop)]
pub enum Status {
    /// The answer was printed.
    Done,
    /// The words are not those of a command.
    Usage(UsageFault),
    /// The job is refused: its bytes are no job, it lacks a key that the verb needs, or its source
    /// is no vertex of the graph.
    BadJob(JobFault),
    /// A graph text is refused.
    BadGraph(TextFault),
    /// The index or an atom that the job names is not that of the graph.
    BadAtoms(AtomsFault),
    /// A file could not be read.
    ReadFault,
    /// The answer, or a file, could not be written to its end.
    WriteFault,
    /// The store could not be read or written.
    DiskFault,
    /// The store is refused: its bytes are none of one for the job and its graph, `run` finds
    /// snapshots in it, or `init` bytes in its file.
    BadStore(StoreFault),
    /// So many updates were made as the job's budget has, and this vertex is a task all the same.
    BudgetSpent { left: Vertex },
    /// A snapshot is needed, and the store, which has so many snapshots and bytes, has no room for
    /// it.
    SnapshotsFull { stored: u32, length: u64 },
    /// There was not enough memory.
    NoMemory,
}

impl Status {
    ghost use Rattle.std.specs.Prelude.{◌≡◌};

    /// The number that a program ends with.
    pub fn number(&self) -> u8
        ensures { result ≡ exit_number self.now }
    {
        match self {
            Status::Done => 0,
            Status::Usage(_) => 1,
            Status::BadJob(_) => 2,
            Status::BadGraph(_) => 3,
            Status::BadAtoms(_) => 4,
            Status::ReadFault => 5,
            Status::WriteFault => 6,
            Status::DiskFault => 7,
            Status::BadStore(_) => 8,
            Status::BudgetSpent { .. } => 9,
            Status::SnapshotsFull { .. } => 10,
            Status::NoMemory => 11,
        }
    }
}

impl From<NoInput> for Status {
    ghost from_gives = { λ why status. status ≡ status_of_no_input why };

    fn from(why: NoInput) -> Self {
        match why {
            NoInput::BadJob(fault) => Status::BadJob(fault),
            NoInput::BadGraph(fault) => Status::BadGraph(fault),
            NoInput::BadAtoms(fault) => Status::BadAtoms(fault),
            NoInput::ReadFault => Status::ReadFault,
            NoInput::NoMemory => Status::NoMemory,
        }
    }
}

impl From<Writing> for Status {
    ghost from_gives = { λ writing status. status ≡ status_of_writing writing };

    fn from(writing: Writing) -> Self {
        match writing {
            Writing::WriteFault => Status::WriteFault,
            Writing::NoMemory => Status::NoMemory,
        }
    }
}

impl From<StoreError> for Status {
    ghost from_gives = { λ why status. status ≡ status_of_no_store why };

    fn from(why: StoreError) -> Self {
        match why {
            StoreError::BadStore(fault) => Status::BadStore(fault),
            StoreError::DiskFault => Status::DiskFault,
            StoreError::NoMemory => Status::NoMemory,
        }
    }
}
