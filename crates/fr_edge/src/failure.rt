// What a point owes by itself: its entry, the rules that are kept there, and where its steps go.
use fr_program::Point;
use fr_rules::Rule;

/// The first of its own obligations that fails at a point.
#[derive(Clone, Copy, PartialEq, Eq)]
pub enum Own {
    /// The actor doesn't begin with the note of its first point.
    Entry,
    /// This rule is breached in a state in which the note holds.
    Rule(Rule),
    /// A step leads to this point and leaves a state in which its note doesn't hold.
    Goes(Point),
}
