// A trace's lines, and what is printed of them.
ghost use Rattle.std.specs.Prelude.{◌≡◌};
ghost use Rattle.fr_trail.specs.Answered.{event_number};

use fr_escape::push_plain;
use fr_events::Trace;
use fr_program::App;
use fr_trace::{NotListed, TraceFault, Unlisted};
use std::alloc::{AllocError, Global};

/// How many events are shown before the one that is spoken of.
const MOST_BEFORE: usize = 3;

/// The most characters of a line that are shown before a mark, and from it on.
const MOST_AROUND: usize = 60;

/// The words of a trace as they are printed: without what steers a terminal.
fn shown(alloc: Global, words: &[u8]) -> Result<String, AllocError> {
    let mut text = String::new(alloc);
    if let Ok(words) = str::from_utf8(words) {
        push_plain(&mut text, words)?;
    }
    Ok(text)
}

/// The line of a trace with this number, from 1; an empty one where there is none.
fn line_in(trace: &[u8], number: usize) -> &str {
    let Ok(lines) = str::from_utf8(trace) else {
        return "";
    };
    let line = lines.lines().nth(number.saturating_sub(1));
    line.unwrap_or("")
}

/// The line of a trace with this number, from 1, as it is printed.
pub(crate) fn line_shown(alloc: Global, trace: &[u8], number: usize) -> Result<String, AllocError> {
    let mut text = String::new(alloc);
    push_plain(&mut text, line_in(trace, number).trim())?;
    Ok(text)
}

/// The first characters of the text, so many at the most.
fn first_of(text: &str, most: usize) -> &str {
    match text.char_indices().nth(most) {
        Some((end, _)) => text.get(..end).unwrap_or(text),
        None => text,
    }
}

/// The last characters of the text, so many at the most.
fn last_of(text: &str, most: usize) -> &str {
    let skipped = text.chars().count().saturating_sub(most);
    match text.char_indices().nth(skipped) {
        Some((begin, _)) => text.get(begin..).unwrap_or(text),
        None => "",
    }
}

/// What is around the column, from 1, of the line of a trace with this number, from 1, and below it a mark.
pub(crate) fn marked(
    alloc: Global,
    trace: &[u8],
    number: usize,
    column: usize,
) -> Result<Vec<String>, AllocError> {
    let line = line_in(trace, number);
    let at = column.saturating_sub(1).min(line.len());
    let (before, behind) = line.split_at_checked(at).unwrap_or((line, ""));
    let mut text = String::new(alloc);
    push_plain(&mut text, last_of(before, MOST_AROUND))?;
    let width = text.chars().count();
    push_plain(&mut text, first_of(behind, MOST_AROUND))?;
    let mark = format!(in alloc; "{:width$}^", "")?;
    Ok(vec![in alloc; text, mark]?)
}

/// The number of the line of the event with this number, from 0; 0 where there is no such event.
pub(crate) fn line_of(trace: &Trace, event: usize) -> usize {
    match trace.events.get(event) {
        Some(event) => event.line,
        None => 0,
    }
}

/// The number, from 1, of the event with this one from 0.
pub(crate) fn event_number(event: usize) -> usize
    ensures { result ≡ event_number event }
{
    event.saturating_add(1)
}

/// The trace's line of the event with this number, from 0, as it stands after the event's number.
pub(crate) fn line_of_event(
    alloc: Global,
    bytes: &[u8],
    trace: &Trace,
    event: usize,
) -> Result<String, AllocError> {
    let number = line_of(trace, event);
    let line = line_shown(alloc, bytes, number)?;
    format!(in alloc; ", line {number}: {line}")
}

/// Which one of all events the one with this number, from 0, is, with its line of the trace.
pub(crate) fn event_shown(
    alloc: Global,
    bytes: &[u8],
    trace: &Trace,
    event: usize,
) -> Result<String, AllocError> {
    let line = line_of_event(alloc, bytes, trace, event)?;
    let (number, total) = (event_number(event), trace.events.len());
    format!(in alloc; "{number} of {total}{line}")
}

/// The last events before the one with this number, from 0, a text each.
pub(crate) fn events_before(
    alloc: Global,
    bytes: &[u8],
    trace: &Trace,
    event: usize,
) -> Result<Vec<String>, AllocError> {
    let mut texts = Vec::new(alloc);
    for before in event.saturating_sub(MOST_BEFORE)..event {
        let number = line_of(trace, before);
        let line = line_shown(alloc, bytes, number)?;
        texts.push(format!(in alloc; "before it, line {number}: {line}")?)?;
    }
    Ok(texts)
}

/// The call that a line begins, or all that it says of its actor.
fn call_in<'a>(unlisted: NotListed<'a>) -> &'a str {
    let Ok(line) = str::from_utf8(unlisted.text) else {
        return "";
    };
    let Some((_, rest)) = line.trim().split_once(' ') else {
        return line;
    };
    match rest.trim().split_once(' ') {
        Some(("enter", call)) => call.trim(),
        _ => rest,
    }
}

/// The name of a call.
fn name_in(call: &str) -> &str {
    match call.split_once('(') {
        Some((name, _)) => name,
        None => call,
    }
}

/// What the trace has that the application doesn't list.
pub(crate) fn unlisted_text<'a>(
    alloc: Global,
    unlisted: NotListed<'a>,
) -> Result<String, AllocError> {
    let number = unlisted.line;
    let actor = shown(alloc, unlisted.actor)?;
    let call = shown(alloc, call_in(unlisted).as_bytes())?;
    let name = shown(alloc, name_in(&call).as_bytes())?;
    match unlisted.what {
        Unlisted::Actor { touches } => {
            let touched = shown(alloc, touches)?;
            format!(in alloc;
                "line {number}: {actor} touches {touched} in {call}, but no actor is named {actor}"
            )
        }
        Unlisted::Object { object } => {
            let object = shown(alloc, object)?;
            format!(in alloc;
                "line {number}: {actor} calls {name} on {object}, but no object is named {object}"
            )
        }
        Unlisted::Call => {
            format!(in alloc;
                "line {number}: {actor} calls {name}, for which the application has no line"
            )
        }
    }
}

/// What is listed, or that nothing is.
fn or_nothing(names: &str) -> &str {
    if names.is_empty() { "none" } else { names }
}

/// Appends a name to others.
fn put_name(text: &mut String, name: &str) -> Result<(), AllocError> {
    if !text.is_empty() {
        text.push_str(", ")?;
    }
    text.push_str(name)
}

/// The names of the application's actors.
fn actors_shown(alloc: Global, app: &App) -> Result<String, AllocError> {
    let mut text = String::new(alloc);
    for actor in app.actors() {
        put_name(&mut text, &actor.name)?;
    }
    Ok(text)
}

/// The names of the application's objects.
fn objects_shown(alloc: Global, app: &App) -> Result<String, AllocError> {
    let mut text = String::new(alloc);
    for object in app.objects() {
        put_name(&mut text, &object.name)?;
    }
    Ok(text)
}

/// What explains that the application doesn't list something: the trace's line, and what is listed in its place, a text each.
pub(crate) fn unlisted_texts<'a>(
    alloc: Global,
    app: &App,
    unlisted: NotListed<'a>,
) -> Result<Vec<String>, AllocError> {
    let (number, line) = (unlisted.line, shown(alloc, unlisted.text.trim_ascii())?);
    let mut texts = Vec::new(alloc);
    texts.push(format!(in alloc; "line {number}: {line}")?)?;
    match unlisted.what {
        Unlisted::Actor { .. } => {
            let names = actors_shown(alloc, app)?;
            texts.push(format!(in alloc; "the actors are: {}", or_nothing(&names))?)?;
        }
        Unlisted::Object { .. } => {
            let names = objects_shown(alloc, app)?;
            texts.push(format!(in alloc; "the objects are: {}", or_nothing(&names))?)?;
        }
        Unlisted::Call => {}
    }
    Ok(texts)
}

/// What is wrong in a line of a trace.
pub(crate) fn fault_text(fault: TraceFault) -> &'static str {
    match fault {
        TraceFault::Version => "the first line isn't `fr_trace 1`",
        TraceFault::NoEvent => "no event",
        TraceFault::BadNumber => "no number of 64 bits",
        TraceFault::UnknownCall => "no call",
        TraceFault::LateHeader => "`unseen` after an event",
        TraceFault::UnknownVariable => "no variable of the application",
        TraceFault::ArgCount => "another number of arguments",
        TraceFault::BadArgument => "no such argument",
        TraceFault::EnterUnseen => "a call that is unseen",
        TraceFault::EnterInCall => "the actor has not returned from the call before",
        TraceFault::ReturnOutside => "the actor returns, but is in no call",
    }
}
