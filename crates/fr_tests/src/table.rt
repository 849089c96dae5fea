// The form of a table of cases.

/// Cases of one subject, one a line, and the files that their texts are put into.
///
/// A line has the question and behind its last ` | ` the answer. A question has one or more texts with ` | ` between them:
/// first the numbers of the points or the list, where they are asked about, then a text for each `?` of the application and
/// of the certificate, in their order, and for a step the state and an actor with its choice. An empty line, and one that
/// begins with #, is for the reader.
#[derive(Clone, Copy)]
pub struct Table {
    pub app: &'static str,
    pub certificate: &'static str,
    pub cases: &'static str,
}

/// What is asked of each case of a table.
#[derive(Clone, Copy)]
pub enum Asked {
    /// The first own obligation that fails at the point.
    Own,
    /// The first end whose guard the point's note doesn't imply.
    Guarded,
    /// Whether a delete at the second point is a danger at the first one.
    Near,
    /// The first point whose steps disturb the point's note.
    Spoiler,
    /// Whether the note of the first point implies that of the second one.
    Implies,
    /// Whether the first actor can have the note of the first point while the second one has that of the second point.
    Together,
    /// A list of the application's index: `writers` and the number of a variable, `lives` and the number of an object, or
    /// `leavers`.
    List,
    /// What is written for the certificate, or why it is refused and where.
    Certificate,
    /// What a step leads to.
    Step,
}
