// What a command answered for one application.
ghost use Rattle.std.specs.Prelude.{◌≡◌, IfOk, string_bytes};
ghost use Rattle.fr_formats.specs.Answers.{IsNew, command_name, failed_rule, greatest_status as greatest, kind_name, status_of, subject, subject_line, warning_rule};

use fr_program::Side;
use std::alloc::{AllocError, Global};

/// The commands whose answers have several formats.
#[derive(Clone, Copy)]
pub enum Command {
    Check,
    Prove,
    Refute,
    Follow,
}

/// What is asked: the command, and the files as they were named.
#[derive(Clone, Copy)]
pub struct Source<'a> {
    pub command: Command,
    pub application: &'a str,
    pub certificate: Option<&'a str>,
}

/// What a command answers.
#[derive(Clone, Copy)]
pub enum AnswerKind {
    /// The verdict is yes.
    Yes,
    /// The verdict is no.
    No,
    /// The verdict is yes, and no order of the mutexes excludes a deadlock, where that was asked.
    MayDeadlock,
    /// There is a run into a breach.
    Breach,
    /// There is a run into a deadlock.
    Deadlock,
    /// No state of any run breaches a rule, nor is one deadlocked where that was asked: all of them were seen.
    NoBreach,
    /// No state that was seen breaches a rule, nor is one deadlocked where that was asked, and more are left.
    StatesLeft,
    /// A run has all events of the trace.
    Followed,
    /// A run has the events before the first that were lost, and after that each actor was followed by itself.
    FollowedApart,
    /// No run that was found has the events up to one of the trace.
    NotFollowed,
    /// The trace has something that the application doesn't list.
    NotListed,
    /// The search had more states than it may keep.
    GaveUp,
    /// A file is refused.
    Refused,
    /// The machine failed.
    Machine,
}

/// A point of the application: where an actor stands, with its line of code.
#[derive(Drop)]
pub struct PlaceShown {
    /// The number of the point, from 0.
    pub point: usize,
    pub actor: String,
    /// The number of the line in the actor's code, from 0.
    pub index: usize,
    pub side: Side,
    /// The line of code.
    pub code: String,
    /// Where the code is in the application's file: line and column, from 1, and its length, in characters.
    pub line: Option<usize>,
    pub column: Option<usize>,
    pub length: Option<usize>,
    /// The line in the source that the application was translated from, where that is known.
    pub source: Option<SourceShown>,
}

/// A line of a source from which an application was translated.
#[derive(Drop)]
pub struct SourceShown {
    /// The source's file, as the application names it.
    pub file: String,
    /// The number of the line in it, from 1.
    pub line: usize,
}

/// What fails, and where.
#[derive(Drop)]
pub struct Failure {
    /// The rule or the part that fails, in a word.
    pub rule: &'static str,
    /// The same as the report says it.
    pub text: String,
    pub place: Option<PlaceShown>,
    /// The point that a step leads to, or from which another actor disturbs.
    pub other: Option<PlaceShown>,
    /// The state that shows it, in words; no text where none is known.
    pub state: String,
    /// The step from that state, in words; no text where none is known.
    pub step: String,
}

/// A step of a run into a breach.
#[derive(Drop)]
pub struct StepShown {
    /// Where its actor is before it.
    pub place: Option<PlaceShown>,
    pub choice: i64,
    /// What it changes, in words.
    pub change: String,
}

/// What a warning is about.
#[derive(Clone, Copy)]
pub enum WarningKind {
    /// Lines of code are never reached.
    NeverReached,
    /// A variable or an object is never used.
    NeverUsed,
    /// There is no task and no interrupt.
    NoActors,
    /// A mutex is held while its task waits without limit for something else.
    HeldWhileWaiting,
    /// A mutex is taken where it can be held already.
    NeverGiven,
    /// An update of a shared variable can be lost.
    LostUpdate,
    /// A variable is read and never written, or written and never read.
    UsedOneWay,
    /// A task sends or receives bytes of a buffer in a critical section.
    BufferInCriticalSection,
}

/// What an answer may hide.
#[derive(Drop)]
pub struct WarningShown {
    pub kind: WarningKind,
    /// The line that is printed.
    pub text: String,
    /// The source's file, where the line of code is from one; it is the application's file otherwise.
    pub file: Option<String>,
    /// The number of the line in that file, from 1, where the warning is about a line.
    pub line: Option<usize>,
}

/// The trace that was followed.
#[derive(Drop)]
pub struct TraceShown {
    /// Its file, as it was named.
    pub file: String,
    /// The number of the line of the trace that can't be followed, or at which it is refused, from 1; None where there is none.
    pub line: Option<usize>,
}

/// What a command answered for one application, or for one trace of it. Its exit status is that of its kind.
#[derive(Drop)]
pub struct AnswerShown {
    pub command: Command,
    /// The application's file, as it was named.
    pub application: String,
    /// The certificate's file, where one was named.
    pub certificate: Option<String>,
    /// The trace that was followed, where one was.
    pub trace: Option<TraceShown>,
    /// The number of the line at which the application's file is refused, from 1, where that is known.
    pub line: Option<usize>,
    pub answer: AnswerKind,
    /// The first line that is printed.
    pub report: String,
    /// The lines that follow: why it is no or a trace isn't followed, or the steps of a run.
    pub lines: Vec<String>,
    pub warnings: Vec<WarningShown>,
    pub failure: Option<Failure>,
    pub steps: Vec<StepShown>,
}

impl Command {
    /// Its name.
    pub(crate) fn name(self) -> &'static str
        ensures { result.now ≡ command_name self }
    {
        match self {
            Command::Check => "check",
            Command::Prove => "prove",
            Command::Refute => "refute",
            Command::Follow => "follow",
        }
    }
}

impl AnswerKind {
    /// The exit status of a command that answers so: 0 for a yes, for no breach, and for a trace that was followed, 1 for a no, for a
    /// breach, for a deadlock that is there or may be, where states are left, and for a trace that wasn't followed, 2 where a file is
    /// refused, and 3 where the machine failed.
    pub fn status(self) -> u8
        ensures { result ≡ status_of self }
    {
        match self {
            AnswerKind::Yes | AnswerKind::NoBreach => 0,
            AnswerKind::Followed | AnswerKind::FollowedApart => 0,
            AnswerKind::No | AnswerKind::MayDeadlock | AnswerKind::Breach => 1,
            AnswerKind::Deadlock | AnswerKind::StatesLeft => 1,
            AnswerKind::NotFollowed | AnswerKind::NotListed | AnswerKind::GaveUp => 1,
            AnswerKind::Refused => 2,
            AnswerKind::Machine => 3,
        }
    }

    /// Its name.
    pub(crate) fn name(self) -> &'static str
        ensures { result.now ≡ kind_name self }
    {
        match self {
            AnswerKind::Yes => "yes",
            AnswerKind::No => "no",
            AnswerKind::MayDeadlock => "may-deadlock",
            AnswerKind::Breach => "breach",
            AnswerKind::Deadlock => "deadlock",
            AnswerKind::NoBreach => "no-breach",
            AnswerKind::StatesLeft => "states-left",
            AnswerKind::Followed => "followed",
            AnswerKind::FollowedApart => "followed-apart",
            AnswerKind::NotFollowed => "not-followed",
            AnswerKind::NotListed => "not-listed",
            AnswerKind::GaveUp => "gave-up",
            AnswerKind::Refused => "refused",
            AnswerKind::Machine => "machine",
        }
    }
}

impl WarningKind {
    /// The name of the rule that warns so.
    pub(crate) fn rule(self) -> &'static str
        ensures { result.now ≡ warning_rule self }
    {
        match self {
            WarningKind::NeverReached => "never-reached",
            WarningKind::NeverUsed => "never-used",
            WarningKind::NoActors => "no-actors",
            WarningKind::HeldWhileWaiting => "held-while-waiting",
            WarningKind::NeverGiven => "never-given",
            WarningKind::LostUpdate => "lost-update",
            WarningKind::UsedOneWay => "used-one-way",
            WarningKind::BufferInCriticalSection => "buffer-in-critical-section",
        }
    }
}

impl AnswerShown {
    /// An answer of this kind to what is asked, with the first line that is printed, and nothing else. Its error is that an allocation was
    /// refused.
    pub fn new(
        alloc: Global,
        source: Source,
        kind: AnswerKind,
        report: String,
    ) -> Result<AnswerShown, AllocError>
        ensures { IfOk result (IsNew source.entry kind (string_bytes report)) }
    {
        let certificate = match source.certificate {
            Some(path) => Some(String::from_str(alloc, path)?),
            None => None,
        };
        Ok(AnswerShown {
            command: source.command,
            application: String::from_str(alloc, source.application)?,
            certificate,
            trace: None,
            line: None,
            answer: kind,
            report,
            lines: Vec::new(alloc),
            warnings: Vec::new(alloc),
            failure: None,
            steps: Vec::new(alloc),
        })
    }

    /// The file that the answer is about: that of the trace, where there is one, and else the application's.
    pub(crate) fn subject(&self) -> &str
        ensures { result.now ≡ subject self.now }
    {
        match &self.trace {
            Some(trace) => trace.file.as_str(),
            None => self.application.as_str(),
        }
    }

    /// The line of that file that the answer is about, where it is about one: that of the trace which can't be followed, or that
    /// at which the application is refused.
    pub(crate) fn subject_line(&self) -> Option<usize>
        ensures { result ≡ subject_line self.now }
    {
        match &self.trace {
            Some(trace) => trace.line,
            None => self.line,
        }
    }

    /// The rule or the part that fails, in a word; the name of the answer's kind where none does.
    pub(crate) fn failed_rule(&self) -> &'static str
        ensures { result.now ≡ failed_rule self.now }
    {
        match &self.failure {
            Some(failure) => failure.rule,
            None => self.answer.name(),
        }
    }
}

/// The exit status of a report: the greatest one of its answers, and 0 where there are none.
pub fn greatest_status(answers: &[AnswerShown]) -> u8
    ensures { result ≡ greatest answers.now }
{
    let mut status = 0;
    for answer in answers {
        status = status.max(answer.answer.status());
    }
    status
}
