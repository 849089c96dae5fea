// Worked notes, as theorems. The functions do nothing: they are there for their contracts.
ghost use Rattle.fr_worked.specs.WorkedNotes.{WorkedClaims, WorkedTogether};
ghost use Rattle.fr_worked.specs.WorkedParts.{WorkedFaults, WorkedImplied};

/// Claims that are true of a mutex and claims that aren't, and alternatives of two tasks that hold
/// in one state and alternatives that don't.
pub fn notes_as_worked()
    ensures claims { WorkedClaims }
    ensures together { WorkedTogether }
{}

/// Parts that have a fault and parts that have none, and notes of which one implies the
/// other or doesn't.
pub fn parts_as_worked()
    ensures faults { WorkedFaults }
    ensures implied { WorkedImplied }
{}
