// How far a trace is followed.
use crate::item::Item;
use fr_calls::Rule;
use fr_program::ActorId;

/// How far a trace can be followed.
#[derive(Drop)]
pub enum Followed {
    /// All of it: this run explains it.
    Whole {
        run: Vec<Item>,
    },
    /// All events before the first that were lost, so many: this run explains them. After that each actor was followed by itself, through
    /// its own code alone, and no event was found to which that doesn't lead.
    UpToLost {
        event: usize,
        run: Vec<Item>,
    },
    /// This run explains the events before the first that were lost. After some that were lost, up to the event with this number, no way
    /// through its actor's own code has its events, wherever it begins.
    Strays {
        event: usize,
        run: Vec<Item>,
    },
    /// Up to the event with this number, from 0: this run explains all events before it, and no run was found that explains it too.
    /// Where that is proved, there is none.
    Stops {
        event: usize,
        run: Vec<Item>,
        is_proved: bool,
    },
    /// Up to the event with this number, the return of a call by this actor: this run explains all events before it, and leads to a
    /// state in which the actor breaches this rule and has no step, before its call or inside it. In no state that the search saw
    /// there could the call end.
    Breaks {
        event: usize,
        rule: Rule,
        actor: ActorId,
        run: Vec<Item>,
    },
    /// At the event with this number there were more states than may be kept.
    GaveUp {
        event: usize,
    },
}
