// Which warnings are asked for.

/// Of which things that a verdict may hide a command warns.
#[derive(Clone, Copy, PartialEq, Eq)]
pub enum Warns {
    /// Of nothing.
    Never,
    /// That there is no task or interrupt.
    OfNoActors,
    /// Of all.
    OfAll,
}
