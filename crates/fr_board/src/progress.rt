// What a pass knows. No value of these types is ever made: contracts and proofs speak of them.
use std::collections::LinkedList;

/// What has become of a number that was drawn.
pub enum Outcome {
    /// It was handed out, and nothing was said of it yet.
    Open,
    /// Its failure is known to all, and not counted yet.
    Marked,
    /// Its job passed.
    Passed,
    /// Its job failed.
    Failed,
    /// Its job was left undone, since one of a lower number has failed.
    Skipped,
}

/// A number that was drawn, with what has become of it.
pub struct Drawn {
    /// The number.
    pub number: u64,
    /// What has become of it.
    pub outcome: Outcome,
}

/// What a pass knows.
pub struct Progress {
    /// How many jobs its board has.
    pub jobs: u64,
    /// The numbers that it has drawn, in order; after a join those of both passes, one list behind the other.
    pub drawn: LinkedList<Drawn>,
    /// Its last look; the number of jobs before any.
    pub look: u64,
    /// How many draws found no number left; a pass makes one at most, a joined one has those of both.
    pub dry_marks: u64,
    /// How many of the board's first passes are joined in it.
    pub weight: u64,
}
