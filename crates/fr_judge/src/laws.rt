// What is proved of the definitions, for every application and every certificate.
ghost use Rattle.fr_judge.specs.Sound.{StartKeepsNotes, StepKeepsNotes, NotesExcludeBreaches, IsSound};
ghost use Rattle.fr_judge.specs.Verdict.{IsVerdictOne};
ghost use Rattle.fr_judge.specs.Owed.{OnlyOwedPartsFail};

/// Where an application has no build fault, the turns of its certificate are distinct and every
/// part is kept at every point, no state of any run breaches a rule; and every such state is well
/// formed and keeps the note of each actor that isn't done.
pub fn certified_is_safe()
    ensures { IsSound }
{}

/// The state in which each run of a certified application begins keeps the notes of all actors.
pub fn the_start_keeps_notes()
    ensures { StartKeepsNotes }
{}

/// In a certified application a step from a state that keeps the notes of all actors leads to one
/// that does.
pub fn a_step_keeps_notes()
    ensures { StepKeepsNotes }
{}

/// In a certified application no actor breaches a rule in a state that keeps the notes of all
/// actors.
pub fn notes_exclude_breaches()
    ensures { NotesExcludeBreaches }
{}

/// An application and a certificate have one verdict.
pub fn the_verdict_is_one()
    ensures { IsVerdictOne }
{}

/// A part that isn't kept at a point is one that the point owes: it names points of the
/// application, and an end that the point is inside.
pub fn only_owed_parts_fail()
    ensures { OnlyOwedPartsFail }
{}
