// The answer to a trace.
ghost use Rattle.std.specs.Prelude.{◌≡◌, ◌≤◌, ◌++◌, ℕ, List, None, IfNone, IfOk, IfSome, codes, option_map, string_bytes};
ghost use Rattle.fr_formats.specs.Answers.{status_of};
ghost use Rattle.fr_formats.specs.declared.answer.AnswerKind.TheVariants.{NotListed as NotListedKind};
ghost use Rattle.fr_explained.specs.declared.item.Item.{Item as ItemOf};
ghost use Rattle.fr_trail.specs.Answered.{
  IsLineRefused,
  IsRefusedAs,
  IsWholeRefused,
  event_words,
  followed_end,
  followed_event,
  followed_head,
  followed_kind,
};
ghost use Rattle.fr_trail.specs.Runs.{IsRunFor, IsRunIn};

use crate::rows::{TrailRow, rows_of};
use crate::run_text::run_text;
use crate::texts::{
    event_number, fault_text, line_of, line_of_event, marked, unlisted_text, unlisted_texts,
};
use crate::why::why;
use fr_escape::place_of_texts;
use fr_events::{Happening, Trace};
use fr_explained::{Followed, Item};
use fr_formats::AnswerKind;
use fr_program::App;
use fr_trace::{NoTrace, NotListed, TraceFault};
use fr_wording::{Sources, actor_name, rule_text};
use std::alloc::{AllocError, Global};

/// How a trace is followed.
#[derive(Clone, Copy)]
pub struct Asked {
    /// The most states that are kept at each event.
    pub states: u32,
    /// Whether any block time in the trace will do.
    pub any_times: bool,
    /// Whether the trace may begin anywhere in a run: then each actor is followed by itself.
    pub from_anywhere: bool,
    /// Whether it is explained why the trace isn't followed further.
    pub explains: bool,
    /// Whether the lines of the run that is found are wanted.
    pub writes: bool,
    /// Whether its rows are wanted, for a page.
    pub shows: bool,
}

/// What is answered of a trace.
#[derive(Drop)]
pub struct TraceAnswer {
    /// Its kind, by which the exit status is 0 where the whole trace is followed, by a run or, after events that were lost, each actor by
    /// itself; and else 1.
    pub kind: AnswerKind,
    /// The line that says so, without a newline.
    pub line: String,
    /// The lines that explain it, where that is asked for.
    pub why: Vec<String>,
    /// The number of the trace's line that can't be followed, or at which the trace is refused, from 1; None where there is none.
    pub stop: Option<usize>,
    /// How far it was followed; None where it wasn't, as it has something that the application doesn't list.
    pub followed: Option<Followed>,
    /// The lines of the run that was found, where they are asked for.
    pub run: Option<String>,
    /// Its rows, where they are asked for.
    pub rows: Vec<TrailRow>,
    /// For each actor, in their order, the number of its last event in the run, where that begins a call: it may still be inside.
    pub begun: Vec<Option<usize>>,
}

/// Why there is no answer.
#[derive(Drop)]
pub enum NoAnswer {
    /// An allocation was refused.
    Memory,
    /// The bytes are no trace.
    Refused {
        /// What is wrong, as it is printed.
        text: String,
        /// The number of the line that is at fault, from 1, where it is one.
        line: Option<usize>,
        /// Where it is: the trace's line, and below it a mark. Empty where it is no line.
        place: Vec<String>,
    },
}

impl From<AllocError> for NoAnswer {
    ghost use Rattle.fr_trail.specs.declared.answer.NoAnswer.TheVariants.{Memory};

    ghost from_gives = { λ _ fault. fault ≡ Memory };

    fn from(_refused: AllocError) -> NoAnswer {
        NoAnswer::Memory
    }
}

/// What the line says after its head and the event that it names, without its end.
fn rest_of(
    alloc: Global,
    bytes: &[u8],
    trace: &Trace,
    followed: &Followed,
    states: u32,
) -> Result<String, AllocError> {
    match followed {
        Followed::Whole { .. } | Followed::UpToLost { .. } if trace.ignored > 0 => {
            let ignored = trace.ignored;
            format!(in alloc; ", {ignored} of others ignored")
        }
        Followed::Whole { .. } | Followed::UpToLost { .. } => Ok(String::new(alloc)),
        Followed::Strays { event, .. } => line_of_event(alloc, bytes, trace, *event),
        Followed::Stops { event, .. } => line_of_event(alloc, bytes, trace, *event),
        Followed::Breaks { event, .. } => line_of_event(alloc, bytes, trace, *event),
        Followed::GaveUp { .. } => format!(in alloc; "{states}"),
    }
}

/// How the line ends.
fn end_of(alloc: Global, followed: &Followed) -> Result<String, AllocError>
    ensures { IfOk result (λ end. string_bytes end ≡ followed_end followed.now) }
{
    match followed {
        Followed::Stops {
            is_proved: false,
            ..
        } => String::from_str(alloc, " (as far as the search saw)"),
        Followed::GaveUp { event } => format!(in alloc; " states after event {event}"),
        _ => Ok(String::new(alloc)),
    }
}

/// Which one of all events the one with this number, from 0, is.
fn event_words(alloc: Global, trace: &Trace, event: usize) -> Result<String, AllocError>
    ensures { IfOk result (λ words. string_bytes words ≡ event_words trace.now event) }
{
    let (number, total) = (event_number(event), trace.events.len());
    format!(in alloc; "{number} of {total}")
}

/// Which event the line names after its head.
fn event_of(alloc: Global, trace: &Trace, followed: &Followed) -> Result<String, AllocError>
    ensures { IfOk result (λ words. string_bytes words ≡ followed_event trace.now followed.now) }
{
    match followed {
        Followed::Strays { event, .. } => event_words(alloc, trace, *event),
        Followed::Stops { event, .. } => event_words(alloc, trace, *event),
        Followed::Breaks { event, .. } => {
            let words = event_words(alloc, trace, *event)?;
            format!(in alloc; ", at event {words}")
        }
        _ => Ok(String::new(alloc)),
    }
}

/// How the line begins.
fn head_of(
    alloc: Global,
    app: &App,
    trace: &Trace,
    followed: &Followed,
) -> Result<String, AllocError>
    ensures { IfOk result (λ head. string_bytes head ≡ followed_head app.now trace.now followed.now) }
{
    let total = trace.events.len();
    match followed {
        Followed::Whole { .. } => format!(in alloc; "followed: {total} events"),
        Followed::UpToLost { .. } => {
            format!(in alloc; "followed: {total} events, each actor by itself")
        }
        Followed::Strays { .. } => String::from_str(alloc, "not followed: event "),
        Followed::Stops { .. } => String::from_str(alloc, "not followed: event "),
        Followed::Breaks { rule, actor, .. } => {
            let (number, rule) = (rule.number(), rule_text(*rule));
            let actor = actor_name(app, *actor);
            format!(in alloc; "breach: rule {number}: {rule}: {actor}")
        }
        Followed::GaveUp { .. } => String::from_str(alloc, "gave up: more than "),
    }
}

/// The kind of the answer.
fn kind_of(followed: &Followed) -> AnswerKind
    ensures kind { result ≡ followed_kind followed.now }
    ensures most { status_of result ≤ 1 }
{
    match followed {
        Followed::Whole { .. } => AnswerKind::Followed,
        Followed::UpToLost { .. } => AnswerKind::FollowedApart,
        Followed::Strays { .. } | Followed::Stops { .. } => AnswerKind::NotFollowed,
        Followed::Breaks { .. } => AnswerKind::Breach,
        Followed::GaveUp { .. } => AnswerKind::GaveUp,
    }
}

/// The number of the event, from 0, at which the trace isn't followed further; None where it is followed to its end.
pub(crate) fn stop_in(followed: &Followed) -> Option<usize> {
    match followed {
        Followed::Whole { .. } | Followed::UpToLost { .. } => None,
        Followed::Strays { event, .. } => Some(*event),
        Followed::Stops { event, .. } => Some(*event),
        Followed::Breaks { event, .. } => Some(*event),
        Followed::GaveUp { event } => Some(*event),
    }
}

/// The run that was found.
pub(crate) fn run_in(followed: &Followed) -> Option<&[Item]>
    ensures some { IfSome result (λ run. IsRunIn followed.now run.now) }
    ensures none { IfNone result ((items : List ItemOf) → IsRunIn followed.now items → ⊥) }
{
    match followed {
        Followed::Whole { run } => Some(run),
        Followed::UpToLost { run, .. } => Some(run),
        Followed::Strays { run, .. } => Some(run),
        Followed::Stops { run, .. } => Some(run),
        Followed::Breaks { run, .. } => Some(run),
        Followed::GaveUp { .. } => None,
    }
}

/// The lines of the run that was found, where they are asked for.
fn lines_of(
    alloc: Global,
    app: &App,
    bytes: &[u8],
    trace: &Trace,
    followed: &Followed,
    asks: bool,
) -> Result<Option<String>, AllocError>
    ensures { IfOk result (λ found. IsRunFor asks app.now followed.now (option_map string_bytes found)) }
{
    if !asks {
        return Ok(None);
    }
    match run_in(followed) {
        Some(run) => Ok(Some(run_text(alloc, app, bytes, trace, run)?)),
        None => Ok(None),
    }
}

/// These texts as lines below an answer: each begins with two blanks, and nothing in one steers a terminal.
fn below(alloc: Global, texts: &[String]) -> Result<Vec<String>, AllocError> {
    let place = place_of_texts(alloc, texts)?;
    let mut lines = Vec::new(alloc);
    for line in place.lines() {
        lines.push(line.clone()?)?;
    }
    Ok(lines)
}

/// The lines that explain how far a trace was followed, where that is asked for.
fn why_lines(
    alloc: Global,
    app: &App,
    sources: &Sources,
    bytes: &[u8],
    trace: &Trace,
    followed: &Followed,
    asked: Asked,
) -> Result<Vec<String>, AllocError> {
    if asked.explains {
        below(alloc, &why(alloc, app, sources, bytes, trace, followed)?)
    } else {
        Ok(Vec::new(alloc))
    }
}

/// The rows of the run that was found, where they are asked for.
fn rows_asked(
    alloc: Global,
    bytes: &[u8],
    trace: &Trace,
    followed: &Followed,
    asked: Asked,
) -> Result<Vec<TrailRow>, AllocError> {
    if asked.shows {
        rows_of(alloc, bytes, trace, followed)
    } else {
        Ok(Vec::new(alloc))
    }
}

/// The lines that explain that something isn't listed, where that is asked for.
fn unlisted_why<'a>(
    alloc: Global,
    app: &App,
    unlisted: NotListed<'a>,
    explains: bool,
) -> Result<Vec<String>, AllocError> {
    if explains {
        below(alloc, &unlisted_texts(alloc, app, unlisted)?)
    } else {
        Ok(Vec::new(alloc))
    }
}

/// For each actor the number of its last event in the run that was found, where that begins a call.
fn begun_in(
    alloc: Global,
    app: &App,
    trace: &Trace,
    followed: &Followed,
) -> Result<Vec<Option<usize>>, AllocError> {
    let mut begun = vec![in alloc; None; app.actors().len()]?;
    let Some(run) = run_in(followed) else {
        return Ok(begun);
    };
    let count = run
        .iter()
        .filter(|item| matches!(**item, Item::Event))
        .count();
    for (number, event) in trace.events.iter().take(count).enumerate() {
        if let Some(last) = begun.get_mut(event.actor.0) {
            *last = matches!(event.what, Happening::Enter(_)).then_some(number);
        }
    }
    Ok(begun)
}

/// What is answered of a trace that was followed so far: its kind, a line, and where that is asked for the lines that explain it, and those
/// of the run that was found. The lines' form is this project's own. Its error is that an allocation was refused.
pub fn answer_of(
    alloc: Global,
    app: &App,
    sources: &Sources,
    bytes: &[u8],
    trace: &Trace,
    followed: Followed,
    asked: Asked,
) -> Result<TraceAnswer, AllocError>
    ensures kind { IfOk result (λ answer. answer.kind ≡ followed_kind followed) }
    ensures line { IfOk result (λ answer. (rest : List ℕ) ×
        (string_bytes answer.line ≡ followed_head app.now trace.now followed ++ (followed_event trace.now followed
        ++ (rest ++ followed_end followed)))) }
    ensures run { IfOk result (λ answer. IsRunFor asked.writes app.now followed (option_map string_bytes answer.run)) }
    ensures most { IfOk result (λ answer. status_of answer.kind ≤ 1) }
{
    let (head, event) = (
        head_of(alloc, app, trace, &followed)?,
        event_of(alloc, trace, &followed)?,
    );
    let (rest, end) = (
        rest_of(alloc, bytes, trace, &followed, asked.states)?,
        end_of(alloc, &followed)?,
    );
    let why = why_lines(alloc, app, sources, bytes, trace, &followed, asked)?;
    let run = lines_of(alloc, app, bytes, trace, &followed, asked.writes)?;
    let rows = rows_asked(alloc, bytes, trace, &followed, asked)?;
    let begun = begun_in(alloc, app, trace, &followed)?;
    Ok(TraceAnswer {
        kind: kind_of(&followed),
        line: format!(in alloc; "{head}{event}{rest}{end}")?,
        why,
        stop: stop_in(&followed).map(|event| line_of(trace, event)),
        followed: Some(followed),
        run,
        rows,
        begun,
    })
}

/// That the whole text is no trace, in these words.
fn whole_refused(alloc: Global, words: &str) -> Result<NoAnswer, AllocError>
    ensures { IfOk result (IsWholeRefused words.now) }
{
    Ok(NoAnswer::Refused {
        text: String::from_str(alloc, words)?,
        line: None,
        place: Vec::new(alloc),
    })
}

/// That a line of the text is at fault.
fn line_refused(
    alloc: Global,
    bytes: &[u8],
    line: usize,
    column: usize,
    fault: TraceFault,
) -> Result<NoAnswer, AllocError>
    ensures { IfOk result (IsLineRefused line column) }
{
    let said = fault_text(fault);
    Ok(NoAnswer::Refused {
        text: format!(in alloc; "refused: trace line {line}, column {column}: {said}")?,
        line: Some(line),
        place: marked(alloc, bytes, line, column)?,
    })
}

/// Why the bytes are no trace.
///
/// # Errors
///
/// Where memory is refused, also while the trace was read.
pub fn no_answer(alloc: Global, bytes: &[u8], why: NoTrace) -> Result<NoAnswer, AllocError>
    ensures { IfOk result (IsRefusedAs why.entry) }
{
    match why {
        NoTrace::TooLong => whole_refused(alloc, "refused: trace 1 TooLong"),
        NoTrace::NotText => whole_refused(alloc, "refused: trace 2 NotText"),
        NoTrace::Faulty {
            line,
            column,
            fault,
        } => line_refused(alloc, bytes, line, column, fault),
        NoTrace::Memory | NoTrace::NotListed(_) => Err(AllocError),
    }
}

/// What is answered of a trace that has something that the application doesn't list. Its error is that an allocation was refused.
pub fn unlisted_answer<'a>(
    alloc: Global,
    app: &App,
    unlisted: NotListed<'a>,
    explains: bool,
) -> Result<TraceAnswer, AllocError>
    ensures kind { IfOk result (λ answer. answer.kind ≡ NotListedKind) }
    ensures line { IfOk result (λ answer. (rest : List ℕ) × (string_bytes answer.line ≡ codes "not listed: " ++ rest)) }
    ensures run { IfOk result (λ answer. answer.run ≡ None) }
{
    let text = unlisted_text(alloc, unlisted)?;
    let why = unlisted_why(alloc, app, unlisted, explains)?;
    Ok(TraceAnswer {
        kind: AnswerKind::NotListed,
        line: format!(in alloc; "not listed: {text}")?,
        why,
        stop: Some(unlisted.line),
        followed: None,
        run: None,
        rows: Vec::new(alloc),
        begun: Vec::new(alloc),
    })
}
