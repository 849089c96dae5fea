// Worked verdicts, as theorems: a yes, and one that is no.
ghost use Rattle.fr_judge.specs.WorkedVerdicts.{RoundIsYes, RoundIsCertified, ReturnIsNo};

/// A task that goes round is certified by a note that says nothing; one that returns is not.
pub fn verdicts_as_worked()
    ensures round { RoundIsYes }
    ensures certified { RoundIsCertified }
    ensures returning { ReturnIsNo }
{}
