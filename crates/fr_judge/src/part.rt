// What can fail at a point, and the verdict.
use fr_ends::EndName;
use fr_program::Point;
use fr_rules::Rule;

/// What can fail at a point, in the order in which it is judged. Within one kind the least rule, end or
/// point comes first.
#[derive(Clone, Copy, PartialEq, Eq)]
pub enum Part {
    /// The actor doesn't begin with the note of its first point.
    Entry,
    /// This rule is breached in a state in which the note holds.
    Rule(Rule),
    /// A step leads to this point and leaves a state in which its note doesn't hold.
    Goes(Point),
    /// The note doesn't imply the guard of this end, inside a call at that end.
    Guard(EndName),
    /// Another actor can delete the object from this point, inside a call on it.
    Near(Point),
    /// Another actor's step from this point leaves a state in which the note doesn't hold.
    Spoiled(Point),
}

/// `Yes` where no part fails at any point, otherwise the least point at which one does, with the
/// first such part.
#[derive(Clone, Copy, PartialEq, Eq)]
pub enum Verdict {
    Yes,
    No { point: Point, part: Part },
}
