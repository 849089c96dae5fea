// The rows of a page that shows a run that was found for a trace.
use crate::answer::{run_in, stop_in};
use crate::run_text::next_line;
use crate::texts::line_shown;
use fr_escape::push_plain;
use fr_events::{Event, Trace};
use fr_explained::{Followed, Item};
use fr_program::ActorId;
use fr_states::StepTaken;
use std::alloc::{AllocError, Global};

/// What a row shows.
#[derive(Drop)]
pub enum TrailRow {
    /// A step of the run.
    Step(StepTaken),
    /// An event of the trace.
    Event {
        /// Whose it is.
        actor: ActorId,
        /// Which one it is, from 1.
        number: usize,
        /// Its line in the trace.
        words: String,
        /// What is to be said of it; nothing where the run has it.
        said: &'static str,
    },
}

/// The row of an event that has this number, from 0, and this line.
fn event_row(
    alloc: Global,
    number: usize,
    event: &Event,
    line: &str,
) -> Result<TrailRow, AllocError> {
    let mut words = String::new(alloc);
    push_plain(&mut words, line.trim())?;
    Ok(TrailRow::Event {
        actor: event.actor,
        number: number.saturating_add(1),
        words,
        said: "",
    })
}

/// The rows of a run.
fn run_rows(
    alloc: Global,
    bytes: &[u8],
    trace: &Trace,
    run: &[Item],
) -> Result<Vec<TrailRow>, AllocError> {
    let (mut lines, mut passed) = (str::from_utf8(bytes).unwrap_or("").lines(), 0usize);
    let (mut events, mut rows) = (trace.events.iter().enumerate(), Vec::new(alloc));
    for item in run {
        match item {
            Item::Step(step) => rows.push(TrailRow::Step(*step))?,
            Item::Event => {
                if let Some((number, event)) = events.next() {
                    let line = next_line(&mut lines, &mut passed, Some(event));
                    rows.push(event_row(alloc, number, event, line)?)?;
                }
            }
        }
    }
    Ok(rows)
}

/// The row of the event at which the trace isn't followed further; None where it is followed to its end, or that is a breach.
fn last_row(
    alloc: Global,
    bytes: &[u8],
    trace: &Trace,
    followed: &Followed,
) -> Result<Option<TrailRow>, AllocError> {
    let said = match followed {
        Followed::Strays { .. } => "its actor's own code can't have this event",
        Followed::Stops { .. } => "no run was found that has this event",
        _ => return Ok(None),
    };
    let Some(number) = stop_in(followed) else {
        return Ok(None);
    };
    match trace.events.get(number) {
        Some(event) => Ok(Some(TrailRow::Event {
            actor: event.actor,
            number: number.saturating_add(1),
            words: line_shown(alloc, bytes, event.line)?,
            said,
        })),
        None => Ok(None),
    }
}

/// The rows of the run that was found, and of the event at which the trace isn't followed further.
pub(crate) fn rows_of(
    alloc: Global,
    bytes: &[u8],
    trace: &Trace,
    followed: &Followed,
) -> Result<Vec<TrailRow>, AllocError> {
    let mut rows = match run_in(followed) {
        Some(run) => run_rows(alloc, bytes, trace, run)?,
        None => Vec::new(alloc),
    };
    if let Some(row) = last_row(alloc, bytes, trace, followed)? {
        rows.push(row)?;
    }
    Ok(rows)
}
