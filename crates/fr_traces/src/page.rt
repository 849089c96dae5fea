// A run that was found for a trace, with the events of the trace beside it.
ghost use Rattle.std.specs.Prelude.{IfOk, string_bytes};
ghost use Rattle.fr_rules.specs.State.{IsWellFormed};
ghost use Rattle.fr_traces.specs.Traces.{IsTrailPage};

use fr_calls::{Rule, State};
use fr_changes::{ExplainedRun, explain_steps};
use fr_explained::Followed;
use fr_formats::AnswerKind;
use fr_lanes::{
    Body, Code, RowPosition, count_text, empty_body, is_shown, omitted_before, page_kind,
    page_with, put_actors, put_end, put_start, put_step, put_tracks, row_of, rule_told,
};
use fr_page::{Doing, Moved, page_text};
use fr_program::{ActorId, App};
use fr_states::StepTaken;
use fr_trail::{TraceAnswer, TrailRow};
use fr_wording::{Depth, depths_of};
use std::alloc::{AllocError, Global};

/// What a row shows of an event of the trace.
fn event_of(alloc: Global, row: &TrailRow) -> Result<Option<Moved>, AllocError> {
    let TrailRow::Event {
        actor,
        number,
        words,
        said,
    } = row
    else {
        return Ok(None);
    };
    Ok(Some(Moved {
        actor: actor.0,
        line: *number,
        code: words.clone()?,
        choice: String::new(alloc),
        change: String::from_str(alloc, said)?,
        doing: Doing::Event,
    }))
}

/// Adds the row of an event, where the page shows it.
fn put_event(
    alloc: Global,
    body: &mut Body,
    app: &App,
    code: &Code,
    depths: &[Depth],
    spot: RowPosition,
    event: &TrailRow,
    state: &State,
) -> Result<(), AllocError>
    requires { IsWellFormed app.now state.now }
{
    let TrailRow::Event { number, .. } = event else {
        return Ok(());
    };
    if !is_shown(spot.row, spot.rows) {
        return Ok(());
    }
    let moved = event_of(alloc, event)?;
    let name = format!(in alloc; "event {number}")?;
    let mut row = row_of(alloc, app, code, depths, name, moved, state)?;
    row.omitted = omitted_before(spot.row, spot.rows);
    Ok(body.steps.push(row)?)
}

/// Adds the rows from the start on, and gives the state after them.
fn put_rows(
    alloc: Global,
    body: &mut Body,
    app: &App,
    code: &Code,
    depths: &[Depth],
    rows: &[TrailRow],
    run: &ExplainedRun,
) -> Result<State, AllocError>
    ensures { IfOk result (λ state. IsWellFormed app.now state) }
{
    let mut state = put_start(alloc, body, app, code, depths)?;
    let mut taken = 0usize;
    for (number, row) in rows.iter().enumerate() {
        let spot = RowPosition {
            row: number,
            rows: rows.len(),
            step: taken,
        };
        if let TrailRow::Event { .. } = row {
            put_event(alloc, body, app, code, depths, spot, row, &state)?;
        } else if let Some(step) = run.steps.get(taken) {
            put_step(alloc, body, app, code, depths, spot, step, &mut state)?;
            taken = taken.saturating_add(1);
        }
    }
    Ok(state)
}

/// The steps among the rows.
fn steps_in(alloc: Global, rows: &[TrailRow]) -> Result<Vec<StepTaken>, AllocError> {
    let mut steps = Vec::new(alloc);
    for row in rows {
        if let TrailRow::Step(step) = row {
            steps.push(*step)?;
        }
    }
    Ok(steps)
}

/// The rule that the firmware was seen breaking, and whose call broke it.
fn broken(followed: &Option<Followed>) -> Option<(Rule, ActorId)> {
    match followed {
        Some(Followed::Breaks { rule, actor, .. }) => Some((*rule, *actor)),
        _ => None,
    }
}

/// Adds the run that was found for a trace, with its events, and the rule that its last step breaks.
fn put_found(
    alloc: Global,
    body: &mut Body,
    app: &App,
    code: &Code,
    depths: &[Depth],
    answer: &TraceAnswer,
    run: &ExplainedRun,
) -> Result<(), AllocError> {
    let state = put_rows(alloc, body, app, code, depths, &answer.rows, run)?;
    match (run.lasts.first(), broken(&answer.followed)) {
        (Some(at), Some((rule, _))) => {
            let said = rule_told(alloc, rule)?;
            let end = (Doing::Breach, said.as_str());
            put_end(alloc, body, app, code, depths, at, end, &state)
        }
        _ => Ok(()),
    }
}

/// Adds how many steps and events the rows have.
fn put_counts(alloc: Global, body: &mut Body, steps: usize, rows: usize) -> Result<(), AllocError> {
    let events = rows.saturating_sub(steps);
    body.counts
        .push(count_text(alloc, steps, "step", "steps")?)?;
    body.counts
        .push(count_text(alloc, events, "event", "events")?)?;
    Ok(())
}

/// Adds the run that was found for a trace to the body, with the events of the trace; nothing where none was found.
fn put_trail(
    alloc: Global,
    body: &mut Body,
    app: &App,
    code: &Code,
    answer: &TraceAnswer,
) -> Result<(), AllocError> {
    let is_shown_below = matches!(answer.kind, AnswerKind::Followed | AnswerKind::NotFollowed);
    if answer.rows.is_empty() && !is_shown_below {
        return Ok(());
    }
    let (steps, depths) = (steps_in(alloc, &answer.rows)?, depths_of(alloc, app)?);
    put_tracks(alloc, body, app, &depths)?;
    put_counts(alloc, body, steps.len(), answer.rows.len())?;
    let sources = &code.sources;
    let run = match broken(&answer.followed) {
        Some((_, actor)) => explain_steps(alloc, app, sources, &steps, &[actor])?,
        None => explain_steps(alloc, app, sources, &steps, &[])?,
    };
    put_found(alloc, body, app, code, &depths, answer, &run)
}

/// Adds what the page shows below the answer to a trace: what explains it, the actors, and the run that was found.
fn put_below(
    alloc: Global,
    body: &mut Body,
    app: &App,
    code: &Code,
    answer: &TraceAnswer,
) -> Result<(), AllocError> {
    for line in &answer.why {
        body.details.push(line.clone()?)?;
    }
    put_actors(alloc, body, app, code)?;
    put_trail(alloc, body, app, code, answer)
}

/// What the page shows below the answer to a trace.
fn trail_body(
    alloc: Global,
    app: &App,
    text: &[u8],
    answer: &TraceAnswer,
) -> Result<Body, AllocError> {
    let code = Code::of(alloc, text)?;
    let mut body = empty_body(alloc);
    put_below(alloc, &mut body, app, &code, answer)?;
    Ok(body)
}

/// The page of the answer to a trace, as one HTML file, where the application has this text and the command was spelled so. Its heading is
/// that of the answer's kind, and the line below it is the answer's. Its error is that an allocation was refused.
pub(crate) fn trail_page(
    alloc: Global,
    app: &App,
    text: &[u8],
    command: String,
    answer: &TraceAnswer,
) -> Result<String, AllocError>
    ensures { IfOk result (λ page. IsTrailPage answer.now.kind (string_bytes answer.now.line) (string_bytes page)) }
{
    let line = answer.line.clone()?;
    let body = trail_body(alloc, app, text, answer)?;
    let page = page_with(page_kind(answer.kind), command, line, body);
    page_text(alloc, &page)
}
