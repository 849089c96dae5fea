// What a machine did.
use fr_program::ActorId;

/// What one poll of an actor did.
#[derive(Clone, Copy, PartialEq, Eq)]
pub enum Entry {
    /// The actor stepped by this choice.
    Stepped(ActorId, i64),
    /// The actor had no step: it waited, or it was done.
    Blocked(ActorId),
}

/// The entries of a run in their order, and the words that picked its choices.
#[derive(Drop)]
pub struct Trace {
    pub entries: Vec<Entry>,
    pub words: Vec<u64>,
}
