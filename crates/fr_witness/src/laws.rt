// What is proved of witnesses. The law is a function that does nothing: it is there for its contract.
ghost use Rattle.fr_witness.specs.Refutes.{ShownIsNotKept};

/// What a witness shows of a part is a reason: in an application without a fault, with a certificate
/// that fits it, a point doesn't keep a part that it owes and of which a witness shows so. A part
/// that a verdict names is always one that its point owes.
pub fn what_is_shown_is_not_kept()
    ensures { ShownIsNotKept }
{}
