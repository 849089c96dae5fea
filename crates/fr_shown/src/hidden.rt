// What an answer may hide.
use crate::shown::Places;
use fr_formats::{Command, Source, WarningKind, WarningShown};
use fr_found::{Finding, Left};
use fr_judge::Verdict;
use fr_outcome::{AppText, Judged, Tried, What};
use fr_program::App;
use fr_request::Warns;
use fr_source::Message;
use fr_warnings::{Warning, warnings_for};
use std::alloc::{AllocError, Global};

/// What is said where a certificate is asked for and the proof is by all states.
const NO_CERTIFICATE: &str = "no certificate was written: all states were gone through instead";

/// What is said of a search that didn't follow all steps.
const NOT_FOLLOWED: &str =
    "not every step was followed: an actor has more than 4096 choices, or a depth or a count past 255";

/// These warnings of an application, with the places of their lines in its text, or in the source that it was translated from.
fn placed(
    alloc: Global,
    app: &App,
    text: &[u8],
    warnings: Vec<Warning>,
) -> Result<Vec<WarningShown>, AllocError> {
    let mut shown = Vec::new(alloc);
    if warnings.is_empty() {
        return Ok(shown);
    }
    let places = Places::build(alloc, app, text)?;
    for warning in warnings {
        shown.push(places.warned(alloc, warning)?)?;
    }
    Ok(shown)
}

/// What the answer may hide, as far as it is asked for: a verdict says nothing of lines that are never reached, and of what is never
/// used. An answer without a verdict hides nothing. Its error is that an allocation was refused.
fn warnings_of(
    alloc: Global,
    what: &What,
    text: &[u8],
    warns: Warns,
) -> Result<Vec<WarningShown>, AllocError> {
    match what {
        What::Judged(judged) => {
            let judged = judged.get();
            let (app, notes) = (judged.app(), &judged.certificate().notes);
            let warnings = warnings_for(alloc, app, Some(notes), warns)?;
            placed(alloc, app, text, warnings)
        }
        What::Searched(searched) => {
            let app = &searched.get().app;
            placed(alloc, app, text, warnings_for(alloc, app, None, warns)?)
        }
        What::Refused(_) => Ok(Vec::new(alloc)),
    }
}

/// Whether a certificate was asked for from the command `prove`.
fn is_unwritten(source: Source) -> bool {
    matches!(source.command, Command::Prove) && source.certificate.is_some()
}

/// The line that says what kept a search from going through all states: None where it is their number, which the answer says.
fn left_line(alloc: Global, left: Left) -> Result<Option<String>, AllocError> {
    Ok(match left {
        Left::States => None,
        Left::Bytes(most) => {
            let mebibytes = most / 1_048_576;
            Some(format!(in alloc; "the limit of {mebibytes} MiB was reached")?)
        }
        Left::Choices => Some(String::from_str(alloc, NOT_FOLLOWED)?),
    })
}

/// What was looked for after this verdict.
fn sought(judged: &Judged) -> &'static str {
    match judged.verdict() {
        Verdict::Yes => "a deadlock",
        Verdict::No { .. } => "a breach",
    }
}

/// The line that says how many states were gone through for a run that isn't there.
fn tried_line(alloc: Global, judged: &Judged, states: usize) -> Result<String, AllocError> {
    let into = sought(judged);
    format!(in alloc; "no run into {into} in {states} states")
}

/// Adds what a search is said to have left, if anything is.
fn add_left(alloc: Global, notes: &mut Vec<String>, left: Left) -> Result<(), AllocError> {
    if let Some(line) = left_line(alloc, left)? {
        notes.push(line)?;
    }
    Ok(())
}

/// Adds how many states were gone through for a run that isn't there, where there was a search.
fn add_tried(alloc: Global, notes: &mut Vec<String>, judged: &Judged) -> Result<(), AllocError> {
    match judged.tried() {
        Some(Tried { states, left }) => {
            notes.push(tried_line(alloc, judged, states)?)?;
            add_left(alloc, notes, left)
        }
        None => Ok(()),
    }
}

/// Adds what was tried besides.
fn add_notes(
    alloc: Global,
    notes: &mut Vec<String>,
    source: Source,
    what: &What,
) -> Result<(), AllocError> {
    match what {
        What::Judged(judged) => add_tried(alloc, notes, judged.get()),
        What::Searched(searched) => match &searched.get().found {
            Finding::Unknown { left, .. } => add_left(alloc, notes, *left),
            Finding::Safe { .. } | Finding::Free { .. } if is_unwritten(source) => {
                Ok(notes.push(String::from_str(alloc, NO_CERTIFICATE)?)?)
            }
            _ => Ok(()),
        },
        What::Refused(_) => Ok(()),
    }
}

/// What was tried besides: how many states were gone through for a run into a breach or a deadlock, where `prove` found none, and what kept the search
/// from going through all; or that no certificate was written, where the proof is by all states. Its error is that an allocation
/// was refused.
fn notes_of(alloc: Global, source: Source, what: &What) -> Result<Vec<String>, AllocError> {
    let mut notes = Vec::new(alloc);
    add_notes(alloc, &mut notes, source, what)?;
    Ok(notes)
}

/// Adds what is left out of the source, where any warning is asked for.
fn add_left_out(
    alloc: Global,
    warnings: &mut Vec<WarningShown>,
    path: &str,
    left_out: &[Message],
    warns: Warns,
) -> Result<(), AllocError> {
    if warns == Warns::Never {
        return Ok(());
    }
    for message in left_out {
        warnings.push(WarningShown {
            kind: WarningKind::NeverReached,
            text: message.report(alloc, path)?,
            file: None,
            line: Some(message.line),
        })?;
    }
    Ok(())
}

/// What is said beside an answer: its warnings, as far as they are asked for, with what is left out of a source, and what was tried besides.
/// Its error is that an allocation was refused.
pub(crate) fn said_beside(
    alloc: Global,
    source: Source,
    what: &What,
    text: &AppText,
    warns: Warns,
) -> Result<(Vec<WarningShown>, Vec<String>), AllocError> {
    let mut warnings = warnings_of(alloc, what, &text.bytes, warns)?;
    add_left_out(
        alloc,
        &mut warnings,
        source.application,
        &text.left_out,
        warns,
    )?;
    Ok((warnings, notes_of(alloc, source, what)?))
}
