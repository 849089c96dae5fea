// What each command is asked for.
use crate::detail::Detail;
use crate::format::Format;

/// What the command line asks for.
#[derive(Clone, Copy)]
pub enum Request<'a> {
    /// The verdict on an application and a certificate.
    Check(CheckRequest<'a>),
    /// A certificate for an application.
    Find(FindRequest<'a>),
    /// The verdict by a certificate that is worked out.
    Prove(ProveRequest<'a>),
    /// The points of the application in this file.
    Points {
        app: &'a str,
        /// Whether it is printed where a refusal is.
        explains: bool,
    },
    /// A run of the application into a breach.
    Refute(RefuteRequest<'a>),
    /// A run of the application.
    Run(RunRequest<'a>),
    /// The application that a source means.
    Translate(TranslateRequest<'a>),
    /// Whether traces are those that runs of the application can have.
    Follow(FollowRequest<'a>),
}

/// A verdict that the command line asks for.
#[derive(Clone, Copy)]
pub struct CheckRequest<'a> {
    /// The files that are judged, of which one or more are named.
    pub files: CheckedFiles<'a>,
    pub workers: u16,
    /// Whether there are warnings of points that are never reached.
    pub warns: bool,
    /// Whether it is asked, where the verdict is yes, if actors can wait for one another's mutexes for ever.
    pub deadlock: bool,
    /// Whether it is printed why the verdict is no or where a refusal is, and how much of a state.
    pub detail: Option<Detail>,
    /// The form of the answer; None where it is a text for a person.
    pub format: Option<Format>,
    /// The file for the page, where one is wanted.
    pub html: Option<&'a str>,
}

/// The files that are judged.
#[derive(Clone, Copy)]
pub enum CheckedFiles<'a> {
    /// An application and its certificate.
    One { app: &'a str, certificate: &'a str },
    /// Those that the list in this file names.
    Listed(&'a str),
}

/// A certificate that the command line asks for.
#[derive(Clone, Copy)]
pub struct FindRequest<'a> {
    pub app: &'a str,
    /// The file for the certificate.
    pub out: &'a str,
    pub rounds: u16,
    /// Whether it is printed where a refusal is.
    pub explains: bool,
}

/// A proof that the command line asks for.
#[derive(Clone, Copy)]
pub struct ProveRequest<'a> {
    pub app: &'a str,
    /// The file for the certificate, where one is wanted.
    pub out: Option<&'a str>,
    pub workers: u16,
    /// Whether there are warnings of points that are never reached.
    pub warns: bool,
    /// Whether it is asked, where the verdict is yes, if actors can wait for one another's mutexes for ever.
    pub deadlock: bool,
    /// Whether it is printed why the verdict is no, what each step of a run into a breach does, or where a refusal
    /// is, and how much of a state.
    pub detail: Option<Detail>,
    /// Whether a run into a breach is looked for where the verdict is no.
    pub searches: bool,
    /// The most states that this search keeps.
    pub states: u32,
    /// The most memory for these states, in MiB.
    pub memory: u32,
    /// Whether it is printed meanwhile how far the search is.
    pub progress: bool,
    /// The form of the answer; None where it is a text for a person.
    pub format: Option<Format>,
    /// The file for the page, where one is wanted.
    pub html: Option<&'a str>,
}

/// A search for a breach that the command line asks for.
#[derive(Clone, Copy)]
pub struct RefuteRequest<'a> {
    pub app: &'a str,
    /// The most states that are kept.
    pub states: u32,
    /// The most memory for these states, in MiB.
    pub memory: u32,
    /// Whether it is printed meanwhile how far the search is.
    pub progress: bool,
    pub workers: u16,
    /// Whether a run into a deadlock is looked for too.
    pub deadlock: bool,
    /// Whether it is printed what each step of the run did, or where a refusal is.
    pub explains: bool,
    /// The form of the answer; None where it is a text for a person.
    pub format: Option<Format>,
    /// The file for the page, where one is wanted.
    pub html: Option<&'a str>,
}

/// A run that the command line asks for.
#[derive(Clone, Copy)]
pub struct RunRequest<'a> {
    pub app: &'a str,
    pub certificate: &'a str,
    pub polls: u32,
    /// The text of the words that choices are picked by, where it is given.
    pub words: Option<&'a str>,
    /// Whether it is printed why the verdict is no or where a refusal is, and how much of a state.
    pub detail: Option<Detail>,
}

/// Traces that the command line asks to follow.
#[derive(Clone, Copy)]
pub struct FollowRequest<'a> {
    pub app: &'a str,
    /// The files of the traces, one or more.
    pub traces: &'a [&'a str],
    /// The most states that are kept at each event.
    pub states: u32,
    /// Whether it is printed why a trace isn't followed further, or where a refusal is.
    pub explains: bool,
    /// Whether it is printed which lines of code the runs that were found didn't take.
    pub covers: bool,
    /// Whether any block time in a trace will do.
    pub any_times: bool,
    /// Whether a trace may begin anywhere in a run: each actor is then followed by itself from wherever it was.
    pub from_anywhere: bool,
    /// The file for the run that is found, where one is wanted.
    pub run: Option<&'a str>,
    /// The form of the answer; None where it is a text for a person.
    pub format: Option<Format>,
    /// The file for the page, where one is wanted.
    pub html: Option<&'a str>,
}

/// A translation that the command line asks for.
#[derive(Clone, Copy)]
pub struct TranslateRequest<'a> {
    /// The file of the source.
    pub source: &'a str,
    /// The file for the application; None where it goes to standard output.
    pub out: Option<&'a str>,
}
