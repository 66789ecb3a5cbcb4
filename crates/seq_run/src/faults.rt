//! Why a run stops.
use gl_base::NoMemory;
use thiserror::Error;

/// Why a step was not made.
#[derive(Clone, Copy, Debug, PartialEq, Eq, Error)]
pub enum StepFault {
    /// The vertex is no task.
    #[error("the vertex is no task")]
    NotScheduled,
    #[error("out of memory")]
    NoMemory,
}

impl From<NoMemory> for StepFault {
    ghost use Rattle.std.specs.Prelude.{◌≡◌};
    ghost use Rattle.seq_run.specs.declared.faults.StepFault.TheVariants.{NoMemory};

    ghost from_gives = { λ _ fault. fault ≡ NoMemory };

    fn from(_: NoMemory) -> Self {
        StepFault::NoMemory
    }
}

/// Why a run stopped before its end.
#[derive(Clone, Copy, Debug, PartialEq, Eq, Error)]
pub enum RunFault {
    /// The budget was used up, and a task is left.
    #[error("the budget was used up, and a task is left")]
    Spent,
    #[error("out of memory")]
    NoMemory,
}

impl From<NoMemory> for RunFault {
    ghost use Rattle.std.specs.Prelude.{◌≡◌};
    ghost use Rattle.seq_run.specs.declared.faults.RunFault.TheVariants.{NoMemory};

    ghost from_gives = { λ _ fault. fault ≡ NoMemory };

    fn from(_: NoMemory) -> Self {
        RunFault::NoMemory
    }
}
