// Worked cases, as theorems: they tie the tables of steps and of rules to states that can be read. Each is a function
// that does nothing: it is there for its contract.
ghost use Rattle.fr_worked.specs.WorkedSteps.{WorkedInstrs, WorkedEnds, WorkedStops, WorkedBounds, WorkedComparisons, WorkedRun};
ghost use Rattle.fr_worked.specs.WorkedRules.{WorkedBreaches, WorkedLeast};
ghost use Rattle.fr_worked.specs.WorkedStates.{WorkedFormed, WorkedContents, WorkedNew, WorkedStart};

/// Steps from a state to a state: instructions, calls of one step, the ends of object calls; states
/// from which there is no step; choices that are out of a step's bounds; the six comparisons; and a
/// run of three states.
pub fn steps_as_worked()
    ensures instrs { WorkedInstrs }
    ensures ends { WorkedEnds }
    ensures stops { WorkedStops }
    ensures bounds { WorkedBounds }
    ensures comparisons { WorkedComparisons }
    ensures run { WorkedRun }
{}

/// States with a breach, states without one, and the least rule that is breached before an
/// instruction.
pub fn breaches_as_worked()
    ensures breaches { WorkedBreaches }
    ensures least { WorkedLeast }
{}

/// States that are well formed and, for each clause of that definition, one that isn't; what each
/// kind of object can have and what it can't; a new object of each kind; and starts.
pub fn states_as_worked()
    ensures formed { WorkedFormed }
    ensures contents { WorkedContents }
    ensures new { WorkedNew }
    ensures start { WorkedStart }
{}
