// Why a machine was not made or not polled, and why a run gave no trace.
ghost use Rattle.std.specs.Prelude.{◌≡◌};
ghost use Rattle.fr_runner.specs.declared.fault.RunFault.TheVariants.{Memory};

use std::alloc::{AllocError, AllocFailed};

/// Why there is no machine, no entry or no trace.
#[derive(Clone, Copy, Debug, PartialEq, Eq)]
pub enum RunFault {
    /// Memory was refused.
    Memory,
    /// More than 1,000,000 polls are asked for.
    Polls,
    /// A thread couldn't be started; those that were started have ended.
    Threads,
    /// No poll is left.
    Spent,
    /// The application has no such actor.
    NoActor,
}

impl From<AllocError> for RunFault {
    ghost from_gives = { λ _ e. e ≡ Memory };

    fn from(_refused: AllocError) -> RunFault {
        RunFault::Memory
    }
}

impl<T: Drop> From<AllocFailed<T>> for RunFault {
    ghost from_gives = { λ _ e. e ≡ Memory };

    fn from(_refused: AllocFailed<T>) -> RunFault {
        RunFault::Memory
    }
}
