// What shows that a verdict's part isn't kept.
use crate::taken::Taken;
use fr_calls::State;

/// What shows that a part isn't kept at a point.
#[derive(Drop)]
pub enum Witness {
    /// The start: the note of the point where the actor begins doesn't hold of it.
    Start(State),
    /// A state with the point's note, in which its actor breaches the rule. Where another point's step
    /// undoes the point's note: a state with both notes, in which the other one's actor is before a
    /// `set` that puts its variable out of the declared range, so that no range of the note has it.
    Breaks(State),
    /// Steps after which alternatives of a note don't hold: one step that undoes them all, or one for
    /// each.
    Leaves(Vec<Taken>),
    /// No guard is listed for the end, or a state with the point's note in which the guard doesn't hold
    /// of its actor.
    Unguarded(Option<State>),
    /// A state with the notes of both points: the actor of the one is inside a call on the object that
    /// the other one is about to delete.
    Both(State),
}
