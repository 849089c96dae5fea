// How much an answer explains.

/// How much of a state is shown where an answer is explained.
#[derive(Clone, Copy, PartialEq, Eq)]
pub enum Detail {
    /// What the notes, the step and the guard speak of.
    Relevant,
    /// Every variable, every object and all depths.
    Whole,
}
