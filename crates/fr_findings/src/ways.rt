// How a command does its work.
use fr_request::{Detail, Warns};

/// How a command does its work, and what it says besides the verdict.
#[derive(Clone, Copy)]
pub struct Ways {
    /// How many threads judge or search.
    pub workers: usize,
    /// The most states that a search for a breach keeps.
    pub states: usize,
    /// The most bytes that these states take.
    pub state_bytes: usize,
    /// Whether it is asked if actors can deadlock over mutexes.
    pub deadlock: bool,
    /// Whether it is explained why it is no and where a refusal is, and how much of a state.
    pub detail: Option<Detail>,
    /// Whether it is found out where a text is refused.
    pub places: bool,
    /// Whether a file that can't be read or written is named.
    pub names: bool,
    pub warns: Warns,
}
