// Why a verdict is no, as values, and the lines that tell it.
ghost use Rattle.std.specs.Prelude.{◌≡◌, [], IfOk, None, length, string_bytes};

use crate::lines::{add_text, put_listed, put_three, put_two, text_of};
use crate::shown::{actor_name, object_name};
use crate::standing::{Line, Standing};
use fr_ends::EndName;
use fr_program::{ActorId, App, Point};
use std::alloc::{AllocError, Global};
use std::mem::drop;

/// What is said below a state or a step of one note.
const ALLOWED: &str =
    "this state is one that the note allows; whether a run gets there, the note doesn't say";

/// The same, of two notes.
const BOTH_ALLOWED: &str =
    "this state is one that both notes allow; whether a run gets there, they don't say";

/// Which state is shown.
#[derive(Clone, Copy)]
pub enum ShownState {
    Start,
    /// A state that the note of one point allows.
    OneNote,
    /// A state that the notes of both points allow.
    BothNotes,
}

/// What a line of code has to do with a verdict.
#[derive(Clone, Copy)]
pub enum Named {
    /// Another point at which a guard is missing.
    Lacks,
    /// A line that gives the guard, or tests it.
    GetsAt,
    /// A line before which the guard could be got, since no line of its actor gives it.
    GetsAhead,
    /// A line that deletes the object.
    Deletes,
    /// A `set` that is out of its range itself.
    OutOfRange,
}

/// One thing that explains a verdict: a line of text.
#[derive(Drop)]
pub enum Explained {
    /// A point that the failing part is about.
    Place(Standing),
    /// A state, by what is so in it; no fact where nothing in it matters.
    State {
        of: ShownState,
        facts: Vec<String>,
    },
    /// Where an actor is in the state, and how deep in the critical section and in suspension.
    Actor(String),
    /// A step from the state, and how its call went; without a choice the step that can't be taken, and why.
    Step {
        actor: ActorId,
        choice: Option<i64>,
        outcome: String,
    },
    /// What is otherwise after the step.
    Changed(Vec<String>),
    /// Where the step leads.
    Then(Standing),
    /// What an actor's note says, a claim for each alternative, beside a state of this kind; no claim where it says that the
    /// actor is never there.
    Says {
        of: ShownState,
        actor: ActorId,
        claims: Vec<String>,
    },
    /// What is so in place of what a note or a guard says, or what a rule forbids.
    But(String),
    /// Who may be at the end of a buffer.
    Guard {
        end: EndName,
        who: String,
    },
    /// No guard is listed for the end of a buffer.
    Unguarded(EndName),
    /// The point of another actor that can be at the same end.
    Beside(Standing),
    /// A line that a person would change, or another point that fails for the same reason.
    Named {
        as_what: Named,
        at: Standing,
    },
    /// The notes allow such a state, and don't say whether a run gets there.
    Allowed(ShownState),
    /// No state that shows it was found.
    NotFound,
    /// Another point that fails, with the line that reports it.
    Other {
        point: Point,
        report: String,
    },
    /// How many more points fail.
    More(u64),
}

/// Why a verdict is no, in the order in which it is told.
#[derive(Drop)]
pub struct Explanation {
    pub items: Vec<Explained>,
}

impl Named {
    /// The words before the line.
    fn words(self) -> &'static str {
        match self {
            Named::Lacks => "without the guard, ",
            Named::GetsAt => "could get it at ",
            Named::GetsAhead => "could get it ahead of ",
            Named::Deletes => "deleted by ",
            Named::OutOfRange => "rule 12 fails first at ",
        }
    }
}

impl ShownState {
    /// What is shown.
    fn title(self) -> &'static str {
        match self {
            ShownState::Start => "the start",
            ShownState::OneNote => "a state with its note",
            ShownState::BothNotes => "a state with both notes",
        }
    }

    /// Whose note isn't so then.
    fn whose(self) -> &'static str {
        match self {
            ShownState::Start | ShownState::OneNote => "its note says",
            ShownState::BothNotes => "the first note says",
        }
    }

    /// What is known of the state.
    fn known(self) -> &'static str {
        match self {
            ShownState::Start => "",
            ShownState::OneNote => ALLOWED,
            ShownState::BothNotes => BOTH_ALLOWED,
        }
    }
}

/// Appends a text and an end of a buffer behind it.
fn put_end(text: &mut String, app: &App, before: &str, end: EndName) -> Result<(), AllocError> {
    put_three(text, before, object_name(app, end.buffer), end.end.text())
}

/// Appends a step.
fn put_step(
    text: &mut String,
    app: &App,
    actor: ActorId,
    choice: Option<i64>,
    outcome: &str,
) -> Result<(), AllocError> {
    text.push_str(actor_name(app, actor))?;
    if let Some(choice) = choice {
        write!(text, ", choice {choice}")?;
    }
    if !outcome.is_empty() {
        write!(text, ": {outcome}")?;
    }
    Ok(())
}

/// Appends what a note says.
fn put_claims(
    text: &mut String,
    app: &App,
    actor: ActorId,
    claims: &[String],
) -> Result<(), AllocError> {
    if claims.is_empty() {
        return put_two(text, actor_name(app, actor), "is never there");
    }
    put_listed(text, claims, " or ", "")
}

impl Explained {
    /// What the line tells of, where it has a name.
    fn put_name(&self, text: &mut String, app: &App) -> Result<(), AllocError> {
        match self {
            Explained::State { of, .. } => text.push_str(of.title()),
            Explained::Says { of, .. } => text.push_str(of.whose()),
            Explained::Step { .. } => text.push_str("step"),
            Explained::Changed(_) => text.push_str("after it"),
            Explained::But(_) => text.push_str("but"),
            Explained::Guard { end, .. } => put_end(text, app, "the guard of", *end),
            _ => Ok(()),
        }
    }

    /// What the line says.
    fn put_said(&self, text: &mut String, app: &App) -> Result<(), AllocError> {
        match self {
            Explained::State { facts, .. } => put_listed(text, facts, "; ", "any"),
            Explained::Step {
                actor,
                choice,
                outcome,
            } => put_step(text, app, *actor, *choice, outcome),
            Explained::Changed(facts) => put_listed(text, facts, "; ", ""),
            Explained::Says { actor, claims, .. } => put_claims(text, app, *actor, claims),
            Explained::But(said) | Explained::Guard { who: said, .. } => text.push_str(said),
            _ => self.put_alone(text, app),
        }
    }

    /// What a line says that has no name.
    fn put_alone(&self, text: &mut String, app: &App) -> Result<(), AllocError> {
        match self {
            Explained::Actor(said) | Explained::Other { report: said, .. } => text.push_str(said),
            Explained::Unguarded(end) => put_end(text, app, "no guard is listed for", *end),
            Explained::Allowed(of) => text.push_str(of.known()),
            Explained::NotFound => text.push_str("no state that shows it was found"),
            Explained::More(count) => write!(text, "and {count} more"),
            _ => Ok(()),
        }
    }

    /// The line in its two parts. Its error is that an allocation was refused. The words are this project's own.
    pub fn line(&self, alloc: Global, app: &App) -> Result<Line, AllocError> {
        match self {
            Explained::Place(at) => at.line(alloc, app, ""),
            Explained::Then(at) => at.line(alloc, app, "then "),
            Explained::Beside(at) => at.line(alloc, app, "beside "),
            Explained::Named { as_what, at } => at.line(alloc, app, as_what.words()),
            _ => self.sentence(alloc, app),
        }
    }

    /// The line that tells no place.
    fn sentence(&self, alloc: Global, app: &App) -> Result<Line, AllocError> {
        let (mut of, mut said) = (String::new(alloc), String::new(alloc));
        self.put_name(&mut of, app)?;
        self.put_said(&mut said, app)?;
        Ok(Line { of, said })
    }

    /// The whole line, with its blanks.
    fn text(&self, alloc: Global, app: &App) -> Result<String, AllocError> {
        let line = self.line(alloc, app)?;
        let text = line.behind(alloc, if self.is_apart() { "" } else { "  " });
        drop(line);
        text
    }

    /// Whether the line stands by itself: the other lines have blanks before them.
    fn is_apart(&self) -> bool {
        matches!(
            self,
            Explained::Allowed(_) | Explained::Other { .. } | Explained::More(_)
        )
    }
}

impl Explanation {
    /// The lines that tell it, a line for each item. Its error is that an allocation was refused. The lines' form is this project's own.
    pub fn lines(&self, alloc: Global, app: &App) -> Result<Vec<String>, AllocError>
        ensures { IfOk result (λ lines. length lines.items ≡ length self.now.items.items) }
    {
        let mut lines = Vec::new(alloc);
        for item in &self.items {
            add_text(&mut lines, item.text(alloc, app)?)?;
        }
        Ok(lines)
    }
}

/// The lines of an explanation, each with its newline; no text where there is none. Its error is that an allocation was refused.
pub fn explanation_text(
    alloc: Global,
    app: &App,
    found: &Option<Explanation>,
) -> Result<String, AllocError>
    ensures { IfOk result (λ text. found.now ≡ None → string_bytes text ≡ []) }
{
    match found {
        Some(explanation) => text_of(alloc, &explanation.lines(alloc, app)?),
        None => Ok(String::new(alloc)),
    }
}
