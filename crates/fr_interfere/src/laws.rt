// What is proved of indexes, for every application. The function does nothing: it is there for its contract.
ghost use Rattle.fr_interfere.specs.IndexLaw.{IndexesAreExact};

/// An index lists exactly the points at which some row of the step table changes the variable, or the object's life, and each `set`
/// of the variable, also one that gives it its own number.
pub fn an_index_is_exact()
    ensures { IndexesAreExact }
{}
