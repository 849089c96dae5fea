// Why there is no such note.
ghost use Rattle.std.specs.Prelude.{◌≡◌};
ghost use Rattle.fr_notes.specs.declared.fault.NoteFault.TheVariants.{Memory};

use std::alloc::{AllocError, AllocFailed};

/// Why parts are no note.
#[derive(Clone, Copy, Debug, PartialEq, Eq)]
pub enum NoteFault {
    /// An allocation was refused.
    Memory,
    /// A held count that is not 1 to 255, is not 1 on a plain mutex, is of no mutex, or is of an object
    /// that the application doesn't have.
    Count,
    /// An object that is both live and dead, or both held and dead.
    Lives,
    /// A range that isn't inside the variable's declared one, or is of a variable that the application
    /// doesn't have.
    Span,
}

/// Why notes are not the notes of an application.
#[derive(Clone, Copy, Debug, PartialEq, Eq)]
pub enum NotesFault {
    /// An allocation was refused.
    Memory,
    /// There isn't one note for each point.
    PointCount,
}

impl From<AllocError> for NoteFault {
    ghost from_gives = { λ _ e. e ≡ Memory };

    fn from(_refused: AllocError) -> NoteFault {
        NoteFault::Memory
    }
}

impl<T: Drop> From<AllocFailed<T>> for NoteFault {
    ghost from_gives = { λ _ e. e ≡ Memory };

    fn from(_refused: AllocFailed<T>) -> NoteFault {
        NoteFault::Memory
    }
}
