// What is true of notes, as theorems. The function does nothing: it is there for its contract.
ghost use Rattle.fr_notes.specs.Laws.{FittingHolds};

/// An alternative that fits an application holds of each of its actors in some state.
pub fn fitting_can_hold()
    ensures { FittingHolds }
{}
