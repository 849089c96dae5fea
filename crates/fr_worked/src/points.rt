// Worked points, as a theorem. The function does nothing: it is there for its contract.
ghost use Rattle.fr_worked.specs.WorkedPoints.{WorkedPoints};

/// Two tasks, of which each sends to a stream buffer for ever, have six points, and the second one
/// inside its call has the number 4.
pub fn points_as_worked()
    ensures { WorkedPoints }
{}
