// Why a trace isn't followed further: where its actor may be, by the run that explains the events before.
ghost use Rattle.std.specs.Prelude.{IfOk};
ghost use Rattle.fr_rules.specs.State.{IsWellFormed};

use crate::awaited::{awaited, records_handler};
use crate::replay::{Replayed, StepSeen, effect_at, replay};
use crate::texts::{event_shown, events_before};
use fr_calls::{Moves, Place, State};
use fr_events::{Event, Happening, Trace};
use fr_explained::{Followed, Item};
use fr_program::{ActorId, ActorKind, App, Call, Instr, Point, Side};
use fr_states::{StepTaken, take_step};
use fr_wording::{
    Sources, actor_name, actor_place, line_of_code, object_told, put_source, standing_at,
};
use std::alloc::{AllocError, Global};

/// What a call that can be answered so can return.
fn answers_text(alloc: Global, moves: Moves) -> Result<String, AllocError> {
    match moves {
        Moves::None => String::from_str(alloc, "it can't return there"),
        Moves::Span { lo, hi } if lo == hi => format!(in alloc; "it can return {lo}"),
        Moves::Span { lo, hi } => format!(in alloc; "it can return {lo} to {hi}"),
        Moves::Pair { a, b } => format!(in alloc; "it can return {a} or {b}"),
    }
}

/// What the call at this point, in which the actor is, can return in the state; an object call that hasn't begun begins first.
fn answers_at(
    alloc: Global,
    app: &App,
    state: &mut State,
    point: Point,
    call: &Call,
) -> Result<String, AllocError>
    requires { IsWellFormed app.now state.old }
    ensures { IfOk result (λ _. IsWellFormed app.now state.new) }
{
    let actor = point.actor;
    if matches!((point.side, call), (Side::Before, Call::On(_))) {
        let _begins = take_step(app, state, StepTaken { actor, choice: 0 })?;
    }
    if actor.0 >= app.actors().len() {
        return Ok(String::new(alloc));
    }
    let moves = state.moves(app, actor);
    match call {
        Call::On(_) | Call::Create { .. } => answers_text(alloc, moves),
        Call::DeleteSelf => String::from_str(alloc, "it never returns"),
        _ if moves == Moves::None => answers_text(alloc, moves),
        _ => String::from_str(alloc, "it can return"),
    }
}

/// Where an actor is that has begun a call, which has had no effect yet: the call, what it can return, and what its object has.
fn inside_text(
    alloc: Global,
    app: &App,
    state: &mut State,
    point: Point,
) -> Result<String, AllocError>
    requires { IsWellFormed app.now state.old }
{
    let name = actor_name(app, point.actor);
    let code = line_of_code(alloc, app, point)?;
    let at = format!(in alloc; "{name} may be inside {}: {code}", point.pc)?;
    let Some(Instr::Call(call)) = app.instr(point) else {
        return Ok(at);
    };
    let answers = answers_at(alloc, app, state, point, call)?;
    match call.object() {
        Some(object) => {
            let told = object_told(alloc, app, state, object)?;
            format!(in alloc; "{at}; {answers}; {told}")
        }
        None => format!(in alloc; "{at}; {answers}"),
    }
}

/// Where an actor is whose call has had its effect by this step.
fn past_text(alloc: Global, app: &App, visit: StepSeen) -> Result<String, AllocError> {
    let StepSeen { point, choice, .. } = visit;
    let (name, pc) = (actor_name(app, point.actor), point.pc);
    let code = line_of_code(alloc, app, point)?;
    match app.instr(point) {
        Some(Instr::Call(Call::On(_) | Call::Create { .. })) => {
            format!(in alloc; "{name} may be past {pc}: {code}; it returned {choice} there")
        }
        _ => format!(in alloc; "{name} may be past {pc}: {code}"),
    }
}

/// Where an actor is that has no call open: before each of the lines at which its next event can be.
fn before_texts(
    alloc: Global,
    app: &App,
    sources: &Sources,
    trace: &Trace,
    from: Point,
) -> Result<Vec<String>, AllocError> {
    let name = actor_name(app, from.actor);
    let mut texts = Vec::new(alloc);
    for point in awaited(alloc, app, trace, from)? {
        let pc = point.pc;
        let code = standing_at(alloc, app, sources, point)?.code_text(alloc)?;
        texts.push(format!(in alloc; "{name} may be before {pc}; expected there: {code}")?)?;
    }
    Ok(texts)
}

/// The step by which the actor's call, which it began last before the event with this number, has had its effect.
fn effect_before(
    app: &App,
    trace: &Trace,
    visits: &[StepSeen],
    actor: ActorId,
    event: usize,
) -> Option<StepSeen> {
    let before = trace.events.get(..event)?;
    let begun = before.iter().rposition(|other| other.actor == actor)?;
    let last = visits.iter().rfind(|visit| visit.point.actor == actor)?;
    let instr = app.instr(last.point)?;
    (last.events > begun && effect_at(last.point, instr).is_some()).then_some(*last)
}

/// Whether the actor's handler runs before the event with this number: it has begun, and has not ended.
fn is_in_handler(trace: &Trace, actor: ActorId, number: usize) -> bool {
    let Some(before) = trace.events.get(..number) else {
        return false;
    };
    let last = before.iter().rfind(|event| event.actor == actor);
    last.is_some_and(|event| !matches!(event.what, Happening::End))
}

/// Why the event with this number can't come where its actor records `begin` and `end`; None where these don't stand against it.
fn handler_text(
    alloc: Global,
    app: &App,
    trace: &Trace,
    number: usize,
    event: &Event,
) -> Result<Option<String>, AllocError> {
    if !records_handler(trace, event.actor) {
        return Ok(None);
    }
    let name = actor_name(app, event.actor);
    if let Some(actor) = app.actors().get(event.actor.0)
        && matches!(actor.kind, ActorKind::Task)
    {
        let text = format!(in alloc;
            "{name} is a task, and only an interrupt has `begin` and `end`"
        )?;
        return Ok(Some(text));
    }
    let is_begin = matches!(event.what, Happening::Begin);
    match (is_begin, is_in_handler(trace, event.actor, number)) {
        (true, true) => Ok(Some(format!(in alloc;
            "{name} has begun its handler, and has not ended it"
        )?)),
        (false, false) => Ok(Some(format!(in alloc;
            "{name} has not begun its handler: an interrupt that records `begin` or `end` records both each time"
        )?)),
        _ => Ok(None),
    }
}

/// Where the actor of the event with this number, from 0, can be by this run, which explains the events before it: a text for each place.
fn places(
    alloc: Global,
    app: &App,
    sources: &Sources,
    trace: &Trace,
    number: usize,
    event: &Event,
    run: &[Item],
) -> Result<Vec<String>, AllocError> {
    if let Some(text) = handler_text(alloc, app, trace, number, event)? {
        return Ok(vec![in alloc; text]?);
    }
    let Replayed { visits, mut state } = replay(alloc, app, run)?;
    let actor = event.actor;
    let Place::At { pc, side } = actor_place(app, &state, actor) else {
        let name = actor_name(app, actor);
        return Ok(vec![in alloc; format!(in alloc; "{name} may have ended")?]?);
    };
    let point = Point { actor, pc, side };
    if !matches!(event.what, Happening::Return { .. }) {
        return before_texts(alloc, app, sources, trace, point);
    }
    let (mut text, at) = match effect_before(app, trace, &visits, actor, number) {
        Some(visit) => (past_text(alloc, app, visit)?, visit.point),
        None => (inside_text(alloc, app, &mut state, point)?, point),
    };
    put_source(&mut text, sources.at(at))?;
    Ok(vec![in alloc; text]?)
}

/// Where the actor of the event with this number, from 0, can be by this run, and the last events before it.
fn stopped(
    alloc: Global,
    app: &App,
    sources: &Sources,
    bytes: &[u8],
    trace: &Trace,
    number: usize,
    run: &[Item],
) -> Result<Vec<String>, AllocError> {
    let mut texts = match trace.events.get(number) {
        Some(event) => places(alloc, app, sources, trace, number, event, run)?,
        None => Vec::new(alloc),
    };
    texts.append(&mut events_before(alloc, bytes, trace, number)?)?;
    Ok(texts)
}

/// That the actor of the event with this number, from 0, has no way to it through its own code, and the last events before it.
fn strayed(
    alloc: Global,
    app: &App,
    bytes: &[u8],
    trace: &Trace,
    number: usize,
) -> Result<Vec<String>, AllocError> {
    let mut texts = Vec::new(alloc);
    if let Some(event) = trace.events.get(number) {
        let name = actor_name(app, event.actor);
        texts.push(format!(in alloc;
            "events were lost before, so {name} is followed by itself: from no line of its code on can it have this event"
        )?)?;
    }
    texts.append(&mut events_before(alloc, bytes, trace, number)?)?;
    Ok(texts)
}

/// What explains how far a trace was followed, a text for each line; none where a run explains all of it.
pub(crate) fn why(
    alloc: Global,
    app: &App,
    sources: &Sources,
    bytes: &[u8],
    trace: &Trace,
    followed: &Followed,
) -> Result<Vec<String>, AllocError> {
    match followed {
        Followed::Stops { event, run, .. } => stopped(
            alloc, app, sources, bytes, trace, *event, run,
        ),
        Followed::Breaks { event, run, .. } => stopped(
            alloc, app, sources, bytes, trace, *event, run,
        ),
        Followed::Strays { event, .. } => strayed(alloc, app, bytes, trace, *event),
        Followed::GaveUp { event } => {
            let mut texts = events_before(alloc, bytes, trace, *event)?;
            let next = event_shown(alloc, bytes, trace, *event)?;
            texts.push(format!(in alloc; "next, event {next}")?)?;
            Ok(texts)
        }
        Followed::Whole { .. } | Followed::UpToLost { .. } => Ok(Vec::new(alloc)),
    }
}
