// What is proved of deadlocks, for every application. Each law is a function that does nothing: it is there for its
// contract.
ghost use Rattle.fr_waits.specs.Waits.{NobodyMoves, IsForGood};

/// No actor of a cycle of waits has a step.
pub fn nobody_in_a_cycle_moves()
    ensures { NobodyMoves }
{}

/// A cycle of waits is still one after each step, of whichever actor, as long as no mutex of it is
/// deleted.
pub fn a_cycle_is_for_good()
    ensures { IsForGood }
{}
