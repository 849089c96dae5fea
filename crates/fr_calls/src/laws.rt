// What is proved of states and steps, for every application. Each law is a function that does nothing: it is there
// for its contract.
ghost use Rattle.fr_calls.specs.Laws.{StartIsWellFormed, StepsStayWellFormed};

/// The state in which each run of an application begins is well formed.
pub fn the_start_is_well_formed()
    ensures { StartIsWellFormed }
{}

/// A step from a well-formed state leads to one, where its actor puts no number out of its
/// declared range.
pub fn steps_stay_well_formed()
    ensures { StepsStayWellFormed }
{}
