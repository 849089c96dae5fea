// What a page shows.

/// An answer, in a word.
#[derive(Clone, Copy, PartialEq, Eq)]
pub enum Kind {
    Yes,
    No,
    /// The application is safe, and no order of its mutexes excludes a deadlock.
    MayDeadlock,
    /// A run breaks a rule.
    Breach,
    /// A run comes to a deadlock.
    Deadlock,
    /// No state of any run breaks a rule.
    Safe,
    /// No breach was found, and not everything was looked at.
    Unknown,
    /// A run has all events of the trace.
    Followed,
    /// A run has the events up to the first that were lost, and after that each actor was followed by itself.
    FollowedApart,
    /// No run was found that has the event that is named.
    NotFollowed,
    /// The trace has something that the application doesn't list.
    NotListed,
    /// The search was ended: it had more states than it may keep.
    GaveUp,
    /// A file is refused.
    Refused,
}

/// An answer, with the code and perhaps a run that it is about.
#[derive(Drop)]
pub struct Page {
    pub kind: Kind,
    /// The words of the command.
    pub command: String,
    /// The line that the command prints.
    pub answer: String,
    /// More lines about it, as where a file is refused.
    pub details: Vec<String>,
    /// Numbers in words, as `3 actors`.
    pub counts: Vec<String>,
    /// What the page leaves out, a sentence each.
    pub omissions: Vec<String>,
    pub actors: Vec<ActorShown>,
    /// The run, from the start on; no steps where there is none.
    pub steps: Vec<RowShown>,
    /// Which actors wait for one another after the run, in the order of the cycle; none where they don't.
    pub waits: Vec<WaitShown>,
}

/// A task or an interrupt, with its code.
#[derive(Drop)]
pub struct ActorShown {
    pub name: String,
    /// `task` or `interrupt`.
    pub kind: String,
    pub lines: Vec<LineShown>,
    /// What a bar can run along its lane for.
    pub tracks: Vec<Track>,
}

/// What a bar runs along a lane for.
#[derive(Drop)]
pub struct Track {
    pub name: String,
    pub kind: TrackKind,
}

#[derive(Clone, Copy, PartialEq, Eq)]
pub enum TrackKind {
    Critical,
    Suspended,
    Held,
}

/// A line of code, with its points.
#[derive(Drop)]
pub struct LineShown {
    pub number: usize,
    pub code: String,
    pub points: Vec<PointShown>,
}

/// A line that explains why a point fails: what it is about, which is empty where the line is a sentence, and what it says
/// of that.
#[derive(Drop)]
pub struct Reason {
    pub of: String,
    pub said: String,
}

/// A place at which an actor can be.
#[derive(Drop)]
pub struct PointShown {
    pub number: usize,
    /// `before` or `inside`.
    pub side: String,
    /// What its note says in words, an item for each alternative.
    pub notes: Vec<String>,
    pub standing: PointState,
    /// Why it fails: a state that shows it, and the step from there.
    pub explanation: Vec<Reason>,
}

/// How it is with a point.
#[derive(Drop)]
pub enum PointState {
    Holds,
    /// With what the report says of it.
    Fails(String),
    /// Nobody ever gets there.
    Never,
}

/// A step of a run, its start, or an event of the trace, with the state behind it.
#[derive(Drop)]
pub struct RowShown {
    /// As `step 3`.
    pub name: String,
    /// How many steps the page leaves out before it.
    pub omitted: usize,
    /// What is done, or which event the trace has; nothing at the start.
    pub moved: Option<Moved>,
    /// Where each actor is then, in their order.
    pub after: Vec<ActorAfter>,
    /// What variables and objects are then.
    pub facts: Vec<String>,
}

/// What the box of an actor in a lane is about.
#[derive(Clone, Copy, PartialEq, Eq)]
pub enum Doing {
    /// The actor takes a step.
    Step,
    /// The actor breaks a rule.
    Breach,
    /// The actor waits for ever.
    Wait,
    /// The trace has an event of the actor.
    Event,
}

/// What an actor does in a step, what is so of it after the last one, or an event that the trace has of it.
#[derive(Drop)]
pub struct Moved {
    /// The actor's number.
    pub actor: usize,
    /// The line of code, by its number; of an event its number in the trace, from 1.
    pub line: usize,
    /// The line's text, or the words of the event.
    pub code: String,
    /// As `choice 3`; no text where nothing is to be said of it.
    pub choice: String,
    /// What the step changes, the rule that is broken, or what the actor waits for.
    pub change: String,
    pub doing: Doing,
}

/// That an actor waits for a mutex, and who holds it.
#[derive(Drop)]
pub struct WaitShown {
    /// The number of the actor that waits.
    pub actor: usize,
    /// The number of the actor that holds the mutex: the same one where it waits for itself.
    pub holder: usize,
    /// The name of the mutex.
    pub mutex: String,
}

/// An actor in a state of a run.
#[derive(Drop)]
pub struct ActorAfter {
    /// Where it is, with its line of code.
    pub place: String,
    /// How deep it is in what each of its tracks is about, in their order.
    pub depths: Vec<u32>,
}
